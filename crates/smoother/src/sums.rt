//! A tap of taps piled.
ghost use Rattle.std.specs.Prelude.{◌≡◌, ◌*◌, ◌^◌, ◌≤◌, slice_index};
ghost use Rattle.scale_space.specs.Taps.{scale, conv};

/// The tap at a place, and 0 past the last.
fn at(taps: &[u64], place: usize) -> u64
    ensures { result ≡ slice_index taps.now place }
{
    taps.get(place).copied().unwrap_or(0)
}

/// The tap at a place of p piled with q. No part of the sum passes the product of the two sums.
pub fn tap(p: &[u64], q: &[u64], place: usize) -> u64
    requires { (scale p.now * scale q.now ≤ 2 ^ 40) × (place ≤ 49) }
    ensures { result ≡ slice_index (conv p.now q.now) place }
{
    // A loop: as a chain over the places it was tried, and the bounds of its products and of its sum stayed open.
    let mut total = 0;
    for i in 0..=place {
        total += at(p, i) * at(q, place - i);
    }
    total
}
