// Why a text is refused, as it is told: 3 and 8 are the numbers that document 01 gives back; the others are for what is no event.
use files::Unwritten;
use std::fmt;

// Why a line is not recorded.
#[derive(Clone, Copy)]
pub(crate) enum Refused {
    Unknown,
    EndsInReturn,
    Unwritten(Unwritten),
}

// The first line that is refused, counted from 1.
#[derive(Clone, Copy)]
pub(crate) struct Stop {
    pub(crate) line: usize,
    pub(crate) why: Refused,
}

impl From<Unwritten> for Refused {
    fn from(why: Unwritten) -> Refused {
        Refused::Unwritten(why)
    }
}

impl fmt::Display for Refused {
    fn fmt<W: fmt::Write>(&self, f: &mut fmt::Formatter<W>) -> fmt::Result {
        match *self {
            Refused::Unknown => write!(f, "not known: no record has these words"),
            Refused::EndsInReturn => write!(f, "not known: it ends in a carriage return"),
            Refused::Unwritten(Unwritten::BadField(field)) => {
                write!(f, "REFUSED 3: field {field} is out of its range")
            }
            Refused::Unwritten(Unwritten::NoRoom) => {
                write!(f, "REFUSED 8: the file would have more than 65,536 bytes")
            }
        }
    }
}
