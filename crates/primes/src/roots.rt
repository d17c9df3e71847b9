//! Whole square roots.
ghost use Rattle.std.specs.Prelude.{◌≡◌};
ghost use Rattle.scale_space.specs.Primes.{root, Root};

/// The largest whole number whose square is not above `d`.
#[tactic(auto, using(scale_space::proofs::Divisors::root_is))]
pub fn root(d: u32) -> u32
    ensures squares { Root d result }
    ensures is { result ≡ root d }
{
    // Not std's isqrt: the loop that yields the root by break is a form that the project fixes here.
    let mut s: u32 = 0;
    loop {
        // The last square tried may not fit 32 bits.
        let next = s as u64 + 1;
        if next * next > d as u64 {
            break s;
        }
        s += 1;
    }
}
