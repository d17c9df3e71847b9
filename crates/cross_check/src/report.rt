//! What is printed of a tally.
use crate::second::faults::Answer;
use crate::tally::{Difference, Tally};
use std::fmt;

/// The counts, and which refusals were met.
impl fmt::Display for Tally {
    fn fmt<W: fmt::Write>(&self, f: &mut fmt::Formatter<W>) -> fmt::Result {
        let name = &self.name;
        let agreeing = self.agreeing;
        let inputs = self.inputs;
        let counted = self.counted;
        let word = &self.word;
        write!(
            f,
            "{name}: {agreeing} of {inputs} agree, {counted} of them {word}"
        )?;
        for (number, met) in self.met.iter().enumerate() {
            if *met {
                write!(f, " {number}")?;
            }
        }
        Ok(())
    }
}

/// The first difference, with both answers.
impl fmt::Display for Difference {
    fn fmt<W: fmt::Write>(&self, f: &mut fmt::Formatter<W>) -> fmt::Result {
        let input = self.input;
        let library = Told(self.library);
        let second = Told(self.second);
        write!(
            f,
            "the first difference is at input {input}: the library {library}, the second implementation {second}"
        )?;
        if self.library == self.second {
            write!(
                f,
                ", but what they leave behind, or what is expected, is another"
            )?;
        }
        Ok(())
    }
}

#[derive(Clone, Copy)]
struct Told(Answer);

impl fmt::Display for Told {
    fn fmt<W: fmt::Write>(&self, f: &mut fmt::Formatter<W>) -> fmt::Result {
        match self.0 {
            Ok(count) => write!(f, "answers {count}"),
            Err(fault) => {
                let number = fault.number;
                let line = fault.line;
                write!(f, "refuses with {number} on line {line}")
            }
        }
    }
}
