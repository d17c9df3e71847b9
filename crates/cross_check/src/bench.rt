//! What a comparison of one kind works with.
use crate::generator::Generator;
use crate::tally::Tally;
use std::alloc::{AllocError, Global};

#[derive(Drop)]
pub struct Bench {
    pub generator: Generator,
    pub tally: Tally,
}

impl Bench {
    pub fn new(heap: Global, seed: u64, tally: Tally) -> Bench {
        Bench {
            generator: Generator::new(heap, seed),
            tally,
        }
    }

    pub fn heap(&self) -> Global {
        self.generator.heap
    }

    pub fn rounds<F: FnMut(&mut Bench) -> Result<(), AllocError>>(
        &mut self,
        count: u32,
        mut round: F,
    ) -> Result<(), AllocError>
        requires { F.IsAlwaysCallable round }
    {
        for _ in 0..count {
            round(self)?;
        }
        Ok(())
    }

    /// The tally of so many rounds.
    pub fn run<F: FnMut(&mut Bench) -> Result<(), AllocError>>(
        mut self,
        count: u32,
        round: F,
    ) -> Result<Tally, AllocError>
        requires { F.IsAlwaysCallable round }
    {
        self.rounds(count, round)?;
        Ok(self.tally)
    }
}
