//! Why a call changed nothing.
ghost use Rattle.std.specs.Prelude.{◌≡◌};
ghost use Rattle.samples.specs.Refusals.{refusal_number};

use std::error::Error;
use std::fmt;

/// The causes for which the calls of this library refuse. A refusal leaves everything as it was.
#[derive(Clone, Copy, PartialEq, Eq, Debug)]
pub enum Refusal {
    OutOfRange = 1,
    AllZero = 2,
    NotAdmitted = 3,
    NoSuchPlace = 4,
    TooManyPasses = 5,
    ScaleTooLarge = 6,
    ProfileLength = 7,
    HeightOutOfRange = 8,
    TooFewSamples = 9,
    BufferTooShort = 10,
    WindowLength = 11,
    SampleTooLarge = 12,
    TableTooShort = 13,
    ScaleOrHeight = 14,
    ReachTooLong = 15,
}

impl Refusal {
    /// The number by which the refusal is known outside.
    pub fn number(self) -> u8
        ensures { result ≡ refusal_number self }
    {
        self as u8
    }

    /// What the refusal says to a reader.
    fn words(self) -> &'static str {
        match self {
            Refusal::OutOfRange => "a weight, p, q or m is out of range",
            Refusal::AllZero => "all weights are 0",
            Refusal::NotAdmitted => "the triple could add a ridge",
            Refusal::NoSuchPlace => "there is no such place or level",
            Refusal::TooManyPasses => "more than 24 passes would stand",
            Refusal::ScaleTooLarge => "the scale would pass 2^40",
            Refusal::ProfileLength => "a profile has 1 to 2,048 heights",
            Refusal::HeightOutOfRange => "a height is out of range",
            Refusal::TooFewSamples => "there are no more samples than the reach",
            Refusal::BufferTooShort => "the work or output buffer is too short",
            Refusal::WindowLength => "a window has reach + 1 samples",
            Refusal::SampleTooLarge => "a sample or numerator is too large",
            Refusal::TableTooShort => "there are more records than table places",
            Refusal::ScaleOrHeight => "the scale is not 1 to 2^40, or the height is out of range",
            Refusal::ReachTooLong => "the reach would pass 48",
        }
    }
}

impl fmt::Display for Refusal {
    fn fmt<W: fmt::Write>(&self, f: &mut fmt::Formatter<W>) -> fmt::Result {
        f.write_str(self.words())
    }
}

impl Error for Refusal {}
