// The event file of a board of calls: its listing, a dump of it, a reader of its records, and a writer of them.
//
//     bytes --frame--> kind --event--> Event --step--> Outcome --put--> text
//
// Every read is total, and in the texts every store: a byte past the end of the file is 0, a byte past the end of the buffer is not stored.
// The writer of records measures first, and stores where there is room.
#![tactic(auto)]

mod bodies;
mod bytes;
mod dump;
mod fit;
mod frames;
mod lent;
mod lines;
mod listing;
mod messages;
mod places;
mod words;
mod write;

pub use bodies::{component_of, count_of, nature_of, plain_at, read_at};
pub use bytes::le2;
pub use dump::rev_dump;
pub use lent::found_at;
pub use listing::rev_listing;
pub use places::count_records;
use rows::Event;
pub use words::says;
pub use write::{
    code_of, count_byte, item_of, message_size, put_2, put_message, rev_same_number,
    rev_write_access, rev_write_expiry, rev_write_message, rev_write_opening, rev_write_request,
    rev_write_slot, rev_write_time, write_at_slot, write_event,
};

// Where a record acts: a plain one, of kind 1 to 6, on slot 0; one of kind 7 on the slot that it names.
// Kept: an `Option<u16>` would read as "no slot" where a plain record acts on slot 0.
#[derive(Clone, Copy, PartialEq, Eq)]
pub enum Where {
    Plain,
    Slot(u16),
}

// Why a record cannot be read, and reading stops at it.
#[derive(Clone, Copy, PartialEq, Eq)]
pub enum Unreadable {
    CutShort,
    BadLength,
    UnknownKind,
}

// A record's frame: where it acts, the kind of its event and the place after it.
// Kept: a number for the kind, here, in frames.rt and in bodies.rt: `length_of`, `plain_of` and `event_at` of the definitions take it.
#[derive(Clone, Copy)]
pub struct Frame {
    pub acts: Where,
    pub kind: u32,
    pub next: usize,
}

// A record of a file: where it acts, its event and the place after it. What stands at a place is
// an `Option<Result<Record, Unreadable>>`: nothing, a record that cannot be read, or a record.
#[derive(Clone, Copy)]
pub struct Record {
    pub acts: Where,
    pub event: Event,
    pub next: usize,
}

// A reader that remembers the bytes it was lent, and its place in them.
#[derive(Clone, Copy)]
pub struct Reader<'a> {
    pub src: &'a [u8],
    pub at: usize,
}

// Why the writer of events wrote nothing: a field out of its range, of which this is the ordinal in the body, from 1; or no room for the
// whole record.
#[derive(Clone, Copy, PartialEq, Eq)]
pub enum Unwritten {
    BadField(u8),
    NoRoom,
}
