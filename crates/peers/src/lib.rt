// What two exchanges say to each other, between the bytes of the wire and the calls:
//
//     parameter --wire--> components --heard--> events          note of a step --sent--> component --wire--> parameter
//
// `wire` knows nothing of calls and `rows` nothing of bytes; here a component becomes the event that a call takes, and what a row sends
// becomes a component. For a host in C two functions carry a parameter to records of events, and a record to a parameter.
#![tactic(auto)]

mod entries;
mod messages;
mod parameters;
mod refusals;

pub use messages::{alone, carried, heard, received, sent, write_sent};
pub use parameters::{rev_read_parameter, rev_write_parameter};

// Why nothing is written for a host in C: of a record's fields the one with this ordinal is the first out of range; no parameter carries a
// record of this kind; there is too little room; the record cannot be read; or the parameter cannot.
#[derive(Clone, Copy, PartialEq, Eq)]
pub enum Refusal {
    BadField(u16),
    OtherKind,
    NoRoom,
    BadRecord(files::Unreadable),
    BadParameter(wire::Refusal),
}
