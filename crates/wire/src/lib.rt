// The components of the ISUP Remote operations parameter (Q.763), in the basic encoding rules, and nothing of calls.
//
//     bytes --head, element, sequence--> places --cursor--> one element after the other --grammar--> component --> parameter
//
// An element is a tag, a length, and as many bytes of contents; one whose tag has bit 32 holds elements, and these may hold elements. Every
// read is total: a byte past the end of the slice is 0.
#![tactic(auto)]

mod bytes;
mod components;
mod cursors;
mod elements;
mod heads;
mod parameters;
mod quick;
mod values;
mod writable;
mod writer;

pub use components::read_component;
pub use parameters::{framed, read_parameter};
pub use writable::bad_field;
pub use writer::{write_component, write_parameter};

// A refusal's number, 11 to 14 of 01, and where it was met.
// Kept: no enum of the four: `element_by`, `walk_by` can say 0 (`refused_is_numbered`, `parameter_refused_is_numbered`: no reader does).
#[derive(Clone, Copy, PartialEq, Eq)]
pub struct Refusal {
    pub number: u8,
    pub place: usize,
}

// An element by its first bytes: its tag, where its contents begin, and the place after them.
#[derive(Clone, Copy)]
pub struct Element {
    pub tag: u8,
    pub body: usize,
    pub next: usize,
}

// Where a reader is. number: 0, or the refusal that stopped it, at the place `at`; nothing moves it then. at: the place of the next element.
// body: where the contents of the element last asked for begin; 0 if it did not stand there.
// Kept: the number beside the places and no Result: the definitions of specs/Grammar.antt read `body` and `at` of a stopped cursor too.
// Kept: 0 for no contents, since `absent_of` and `stopped_of` of specs/Cursors.antt have 0 as `body`, and the grammar reads on from it.
#[derive(Clone, Copy)]
pub struct Cursor {
    pub number: u8,
    pub at: usize,
    pub body: usize,
}

// A telephone number as a record of 01 has it: the count of its digits, 128 more for an international one, and its value. Absent: 0 and 0.
// Kept: here and in Component numbers, no Option, no enum: fields out of range are values, which `bad_field` tells (`told_is_first_bad`).
#[derive(Clone, Copy)]
pub struct Number {
    pub count: u8,
    pub value: u64,
}

// A component as 01 has it: kind 1 to 4, operation or error number, parts, and their values. id: its invoke identifier, 256 for none.
#[derive(Clone, Copy)]
pub struct Component {
    pub kind: u8,
    pub item: u8,
    pub parts: u8,
    pub calling: Number,
    pub called: Number,
    pub duration: u32,
    pub id: u16,
}

// What the last of a SEQUENCE's own elements says: the part that it sets, or 0; and a Duration.
// Kept: a sum of powers of two for parts, here and in Said: `parts_of` of specs/Grammar.antt adds up what `last_of` and its like set.
#[derive(Clone, Copy)]
pub struct Last {
    pub cursor: Cursor,
    pub part: u8,
    pub duration: u32,
}

// What a SEQUENCE says. number: of the part 16 or 32, else absent.
#[derive(Clone, Copy)]
pub struct Said {
    pub cursor: Cursor,
    pub parts: u8,
    pub number: Number,
    pub duration: u32,
}

// What a parameter holds: no component; one; or several, which read_component reads from place 3 on.
#[derive(Clone, Copy)]
pub enum Whole {
    Empty,
    One(Component),
    Several(usize),
}

// Why a text is not written: the field with this ordinal is the first that is out of range; or there is too little room.
#[derive(Clone, Copy, PartialEq, Eq)]
pub enum Unwritten {
    BadField(u8),
    NoRoom,
}
