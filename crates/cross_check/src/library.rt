//! The library's answers in the words of the second implementation.
use crate::second::faults::Fault;
use crate::second::finding::{CrossingRecord, Kind, TurnRecord, Way};
use crate::second::passes::Weights;
use listing::listings::ListingFault;
use samples::refusals::Refusal;
use scale_space::crossings::{Crossing, Direction};
use scale_space::passes::Pass;
use scale_space::turns::{Turn, TurnKind};
use sheets::faults::SheetFault;

impl From<Refusal> for Fault {
    fn from(refusal: Refusal) -> Fault {
        Fault::plain(refusal.number())
    }
}

impl From<SheetFault> for Fault {
    fn from(fault: SheetFault) -> Fault {
        Fault {
            number: fault.number(),
            line: fault.line(),
        }
    }
}

impl From<ListingFault> for Fault {
    fn from(fault: ListingFault) -> Fault {
        Fault::plain(fault.number())
    }
}

impl From<Pass> for Weights {
    fn from(pass: Pass) -> Weights {
        match pass {
            Pass::Pair(a, b) => Weights::pair(a, b),
            Pass::Triple(a, b, c) => Weights::triple(a, b, c),
        }
    }
}

impl From<TurnKind> for Kind {
    fn from(kind: TurnKind) -> Kind {
        match kind {
            TurnKind::Ridge => Kind::Ridge,
            TurnKind::Hollow => Kind::Hollow,
        }
    }
}

impl From<Turn> for TurnRecord {
    fn from(turn: Turn) -> TurnRecord {
        TurnRecord {
            kind: Kind::from(turn.kind),
            number: turn.kind.number(),
            place: turn.place,
            numerator: turn.numerator,
        }
    }
}

impl From<Direction> for Way {
    fn from(direction: Direction) -> Way {
        match direction {
            Direction::Up => Way::Up,
            Direction::Down => Way::Down,
        }
    }
}

impl From<Crossing> for CrossingRecord {
    fn from(crossing: Crossing) -> CrossingRecord {
        CrossingRecord {
            from: crossing.from,
            to: crossing.to,
            way: Way::from(crossing.direction),
            number: crossing.direction.number(),
        }
    }
}
