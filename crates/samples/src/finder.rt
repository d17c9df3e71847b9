//! Finders: they read samples one by one, and give a record where a sample completes one.
ghost use Rattle.std.specs.Prelude.{◌≡◌, ℕ, ◌+◌, ◌≤◌, List, [], ◌∷◌, ◌++◌, length, drop, set, ℤ};
ghost use Rattle.samples.specs.Answers.{listed, written};
ghost use Rattle.samples.specs.Finders.{then};

use crate::refusals::Refusal;

pub trait Finder: Copy {
    type Found: Copy;

    /// What it will give for samples of which the first has this place.
    ghost finds: { Self → ℕ → List ℤ → List Self.Found };

    /// Reads the sample at a place.
    fn read(&mut self, place: usize, sample: i64) -> Option<Self::Found>
        ensures { (rest : List ℤ) → finds self.old place (sample ∷ rest) ≡ then result (finds self.new (place + 1) rest) };

    ghost nothing: { (f : Self) (place : ℕ) → finds f place [] ≡ [] };
}

/// Puts an item at a place of the table, if it has that place.
fn put<T: Copy>(table: &mut [T], place: usize, item: T)
    ensures { table.new ≡ set table.old place item }
{
    if place < table.len() {
        table[place] = item;
    }
}

/// Puts a finder's records into a table, in order, as far as it has room, and answers how many records there are.
fn fill<F: Finder>(mut finder: F, samples: &[i64], table: &mut [F::Found]) -> usize
    ensures count { result ≡ length (F.finds finder 0 samples.now) }
    ensures few { result ≤ length samples.now }
    ensures places { result ≤ length table.old → table.new ≡ F.finds finder 0 samples.now ++ drop result table.old }
{
    // Counted by hand: records past the room count too.
    let mut found = 0;
    for (i, sample) in samples.iter().enumerate() {
        if let Some(record) = finder.read(i, *sample) {
            put(table, found, record);
            found += 1;
        }
    }
    found
}

/// How many records a finder gives for the samples.
pub fn count<F: Finder>(finder: F, samples: &[i64]) -> usize
    ensures is { result ≡ length (F.finds finder 0 samples.now) }
    ensures few { result ≤ length samples.now }
{
    fill(finder, samples, &mut [])
}

/// Puts a finder's records into the caller's table, in order, unless they are too many for it. Only a table shorter than the
/// samples can be too short: for it they are counted first, so that a refusal writes none.
pub fn list<F: Finder>(finder: F, samples: &[i64], table: &mut [F::Found]) -> Result<usize, Refusal>
    ensures answer { result ≡ listed (F.finds finder 0 samples.now) (length table.old) }
    ensures places { table.new ≡ written result (F.finds finder 0 samples.now) table.old }
{
    if samples.len() > table.len() && count(finder, samples) > table.len() {
        return Err(Refusal::TableTooShort);
    }
    Ok(fill(finder, samples, table))
}
