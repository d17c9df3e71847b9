//! How a prime table is built, and read.
ghost use Rattle.std.specs.Prelude.{◌≡◌, ◌<◌, ◌≤◌, [], length, IfOk, IfErr, fold, slice_index_or, slice_set};
ghost use Rattle.std.specs.List.{insert};
ghost use Rattle.std.specs.List.Sorted.{IsSearchInRange};
ghost use Rattle.scale_space.specs.Passes.{Proper, taps};
ghost use Rattle.scale_space.specs.Primes.{factors, primes, Factored};
ghost use Rattle.scale_space.specs.Tables.{single, raised, added, table, Tabulates};
ghost use Rattle.schedule.specs.Calls.{passes};
ghost use Rattle.primes.specs.Counts.{counted, blank};
ghost use Rattle.primes.specs.Entries.{entries};

use crate::roots::root;
use crate::splitting::split;
use crate::tables::PrimeTable;
use fixed_list::FixedList;
use scale_space::passes::Pass;
use scale_space::primes::PrimeCount;
use schedule::schedules::Schedule;

impl PrimeTable {
    /// No prime at all.
    fn new() -> PrimeTable
        ensures { entries result ≡ [] }
    {
        PrimeTable {
            list: FixedList::new(PrimeCount {
                prime: Pass::Pair(1, 0),
                count: 0,
            }),
        }
    }

    /// Where the record of `prime` is, or else where one is to go.
    fn find(&self, prime: Pass) -> Result<usize, usize>
        ensures range { IsSearchInRange result (length (entries self.now)) }
        ensures is_there { IfOk result (λ k. added (entries self.now) prime ≡ slice_set (entries self.now) k (raised (slice_index_or (entries self.now) k blank))) }
        ensures is_new { IfErr result (λ k. added (entries self.now) prime ≡ insert (entries self.now) k (single prime)) }
    {
        self.as_slice()
            .binary_search_by_key(&prime, |record| record.prime)
    }

    /// Raises the count at a place by one.
    fn raise(&mut self, place: usize)
        requires place { place < length (entries self.old) }
        requires room { counted (entries self.old) < 48 }
        ensures { entries self.new ≡ slice_set (entries self.old) place (raised (slice_index_or (entries self.old) place blank)) }
    {
        let record = self.list.item_mut(place);
        record.count += 1;
    }

    /// Counts one more `prime`.
    fn add(&mut self, prime: Pass)
        requires { counted (entries self.old) < 48 }
        ensures { entries self.new ≡ added (entries self.old) prime }
    {
        match self.find(prime) {
            Ok(place) => self.raise(place),
            Err(place) => self.list.insert(place, PrimeCount { prime, count: 1 }),
        }
    }

    /// Counts the primes of a pass: a triple is two pairs where b² - 4ac is a square, and else a prime itself.
    #[tactic(auto, using(crate::proofs::Taking::proper_reduced, scale_space::proofs::Entries::counted_added))]
    fn take(&mut self, pass: Pass)
        requires proper { Proper pass }
        requires room { counted (entries self.old) ≤ 46 }
        ensures { entries self.new ≡ fold added (entries self.old) (factors pass) }
    {
        match pass {
            Pass::Pair(_, _) => self.add(pass),
            Pass::Triple(a, b, c) => {
                let d = b * b - 4 * (a * c);
                let s = root(d);
                if s * s == d {
                    let (left, right) = split(a, b, c, s);
                    self.add(left);
                    self.add(right);
                } else {
                    self.add(pass);
                }
            }
        }
    }

    /// The prime table of a schedule. Its primes, piled as often as it says, have the schedule's taps.
    #[tactic(auto, using(scale_space::proofs::Factors::primes_factored))]
    pub fn of(schedule: &Schedule) -> PrimeTable
        ensures is { entries result ≡ table (passes schedule.now) }
        ensures tabulates { Tabulates (primes (passes schedule.now)) (entries result) }
        ensures piled { Factored (primes (passes schedule.now)) (taps (passes schedule.now)) }
    {
        let mut table = PrimeTable::new();
        for pass in schedule.as_slice() {
            table.take(*pass);
        }
        table
    }

    /// The records, in order.
    pub fn as_slice(&self) -> &[PrimeCount]
        ensures { result.now ≡ entries self.now }
    {
        self.list.as_slice()
    }
}
