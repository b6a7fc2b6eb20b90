// The body of a record, and the event that it is. No field is judged here: the call answers 3.
ghost use Rattle.std.specs.Prelude.{◌≡◌, ◌+◌, ◌*◌, ◌^◌, ◌<◌, ◌≤◌};
ghost use Rattle.files.specs.Bodies.{nature_of, count_of, number_if, opening_at, ask_at, component_of, message_at, access_at, time_at, event_at};
ghost use Rattle.files.specs.Bodies.{body_at, read_by, read_at, plain_at};
ghost use Rattle.files.specs.Bytes.{le_at};
ghost use Rattle.std.specs.Int.{from_bool};

use crate::bytes::{byte, le4, le8};
use crate::frames::{frame, plain_frame};
use crate::{Frame, Record, Unreadable, Where};
use rows::{ABSENT, Component, Event, Message, Nature, Number};

// Kept: the bounds of a place are clauses, here and below: it comes from a slice's length, and a type of it would be built at each field.

// The count byte's two halves. Its top bit is read here alone, and written in write.rt alone.
// Kept: functions with names, and component_of below: a From would not say which of the numbers that a record has is meant.
#[tactic(auto, using(text::proofs::Cases::cases), unfolding(crate::specs::Bodies::nature_of))]
pub fn nature_of(byte: u8) -> Nature
    ensures { result ≡ nature_of byte }
{
    if byte < 128 {
        Nature::National
    } else {
        Nature::International
    }
}

#[tactic(auto, unfolding(crate::specs::Bodies::count_of))]
pub fn count_of(byte: u8) -> u8
    ensures { result ≡ count_of byte }
{
    byte % 128
}

// A number: its count byte, and 8 bytes of value.
#[tactic(auto, using(crate::proofs::Records::number_as))]
fn number_at(s: &[u8], i: usize) -> Number
    requires { i + 8 < 2 ^ 64 }
    ensures { result ≡ number_if s.now i 1 }
{
    let counted = byte(s, i);
    Number {
        nature: nature_of(counted),
        count: count_of(counted),
        value: le8(s, i + 1),
    }
}

#[tactic(auto, using(crate::proofs::Records::opening_as))]
fn opening_at(s: &[u8], b: usize) -> Event
    requires { b + 64 < 2 ^ 64 }
    ensures { result ≡ opening_at s.now b }
{
    Event::Opening(byte(s, b), byte(s, b + 1), number_at(s, b + 2))
}

#[tactic(auto, using(crate::proofs::Records::ask_as))]
fn ask_at(s: &[u8], b: usize) -> Event
    requires { b + 64 < 2 ^ 64 }
    ensures { result ≡ ask_at s.now b }
{
    Event::Ask(byte(s, b), number_at(s, b + 1))
}

#[tactic(auto, using(text::proofs::Cases::cases), unfolding(crate::specs::Bodies::component_of))]
pub fn component_of(code: u8, n: u8) -> Component
    ensures { result ≡ component_of code n }
{
    match code {
        0 => Component::Absent(n),
        1 => Component::Invoke(n),
        2 => Component::Result(n),
        3 => Component::Error(n),
        4 => Component::Reject(n),
        _ => Component::Unknown(code, n),
    }
}

// A number where its part is present, else absent; and the place after it.
#[tactic(auto, using(crate::proofs::Records::number_there, crate::proofs::Records::number_none))]
fn number_if(s: &[u8], i: usize, present: bool) -> (Number, usize)
    requires { i + 9 < 2 ^ 64 }
    ensures number { result.0 ≡ number_if s.now i (from_bool present) }
    ensures place { result.1 ≡ i + 9 * from_bool present }
{
    if present {
        (number_at(s, i), i + 9)
    } else {
        (ABSENT, i)
    }
}

#[tactic(auto, using(crate::proofs::Records::duration_there, crate::proofs::Records::duration_none))]
fn duration_if(s: &[u8], i: usize, present: bool) -> u32
    requires { i + 3 < 2 ^ 64 }
    ensures { result ≡ le_at (4 * from_bool present) s.now i }
{
    if present { le4(s, i) } else { 0 }
}

// The numbers and the duration that are present follow one another.
#[tactic(auto, using(crate::proofs::Records::message_as))]
fn message_at(s: &[u8], b: usize) -> Message
    requires { b + 64 < 2 ^ 64 }
    ensures { result ≡ message_at s.now b }
{
    let parts = byte(s, b + 4);
    let (calling, i) = number_if(s, b + 5, parts / 16 % 2 == 1);
    let (called, i) = number_if(s, i, parts / 32 % 2 == 1);
    Message {
        kind: byte(s, b),
        cause: byte(s, b + 1),
        component: component_of(byte(s, b + 2), byte(s, b + 3)),
        parts,
        calling,
        called,
        duration: duration_if(s, i, parts / 64 % 2 == 1),
    }
}

#[tactic(auto, using(crate::proofs::Records::access_as))]
fn access_at(s: &[u8], b: usize) -> Event
    requires { b + 64 < 2 ^ 64 }
    ensures { result ≡ access_at s.now b }
{
    Event::FromAccess(byte(s, b), byte(s, b + 1))
}

#[tactic(auto, using(crate::proofs::Records::time_as))]
fn time_at(s: &[u8], b: usize) -> Event
    requires { b + 64 < 2 ^ 64 }
    ensures { result ≡ time_at s.now b }
{
    Event::Time(le4(s, b))
}

// The event of a body. A frame lets no kind through but 1 to 6.
#[tactic(auto, using(text::proofs::Cases::cases), unfolding(crate::specs::Bodies::event_at))]
pub(crate) fn event_at(s: &[u8], b: usize, kind: u32) -> Event
    requires { b + 64 < 2 ^ 64 }
    ensures { result ≡ event_at s.now b kind }
{
    match kind {
        1 => opening_at(s, b),
        2 => ask_at(s, b),
        3 => Event::Received(message_at(s, b)),
        4 => access_at(s, b),
        5 => Event::Expiry,
        _ => time_at(s, b),
    }
}

impl Where {
    // Where the body of its event begins: after length and kind; inside one of kind 7 after these, the slot, and length and kind once more.
    pub(crate) fn body_at(self, at: usize) -> usize
        requires { at < 2 ^ 63 }
        ensures { (result ≡ body_at self at) × (result ≤ at + 10) }
    {
        match self {
            Where::Plain => at + 4,
            Where::Slot(_) => at + 10,
        }
    }
}

// A record by its frame.
pub(crate) fn read_by(
    s: &[u8],
    at: usize,
    f: Result<Frame, Unreadable>,
) -> Result<Record, Unreadable>
    requires { at < 2 ^ 63 }
    ensures { result ≡ read_by s.now at f }
{
    let Frame { acts, kind, next } = f?;
    let event = event_at(s, acts.body_at(at), kind);
    Ok(Record { acts, event, next })
}

// What stands at a place of a file.
#[tactic(auto, using(text::proofs::Cases::cases, crate::proofs::Records::read_as), unfolding(crate::specs::Bodies::read_at))]
pub fn read_at(s: &[u8], at: usize) -> Option<Result<Record, Unreadable>>
    ensures { result ≡ read_at s.now at }
{
    if s.len() <= at {
        None
    } else {
        Some(read_by(s, at, frame(s, at)))
    }
}

// The same where plain records alone may stand.
// Kept: beside read_at, from which it differs by one framing: one for both would be lent that as a closure, and be longer.
#[tactic(auto, using(text::proofs::Cases::cases, crate::proofs::Records::plain_read_as), unfolding(crate::specs::Bodies::plain_at))]
pub fn plain_at(s: &[u8], at: usize) -> Option<Result<Record, Unreadable>>
    ensures { result ≡ plain_at s.now at }
{
    if s.len() <= at {
        None
    } else {
        Some(read_by(s, at, plain_frame(s, at)))
    }
}
