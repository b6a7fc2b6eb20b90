// Framing: where a record ends and what kind it is, or why reading stops.
ghost use Rattle.std.specs.Prelude.{◌≡◌, ◌+◌, ◌^◌, ◌<◌};
ghost use Rattle.files.specs.Frames.{stop_number, length_of, plain_of, plain_frame, kindless_of, outer_of, slotted_frame, frame_at};

use crate::bytes::{byte, le2};
use crate::{Frame, Unreadable, Where};

// 02 #107: "kind 7: two bytes of slot, then a whole inner record of kind 1 to 6; its length is 8 to 35".
pub const SLOTTED: u32 = 7;

const LONGEST_RECORD: u32 = 35;

impl Unreadable {
    // 01, numbers given back.
    pub fn number(self) -> u8
        ensures { result ≡ stop_number self }
    {
        match self {
            Unreadable::CutShort => 5,
            Unreadable::BadLength => 6,
            Unreadable::UnknownKind => 7,
        }
    }
}

// The length that a kind has, 0 for an unknown kind. A message's follows its parts 16, 32 and 64 alone.
// Kept: the 0, since no length is 0, and the writer's lengths are sums with this one (`length_of` of specs/Frames.antt).
#[tactic(auto, using(text::proofs::Cases::cases, crate::proofs::Records::message_size), unfolding(crate::specs::Frames::length_of, crate::specs::Fields::size_of))]
pub(crate) fn length_of(kind: u32, parts: u32) -> u32
    ensures { result ≡ length_of kind parts }
{
    match kind {
        1 => 13,
        2 => 12,
        3 => 7 + 9 * (parts / 16 % 2) + 9 * (parts / 32 % 2) + 4 * (parts / 64 % 2),
        4 => 4,
        5 => 2,
        6 => 6,
        _ => 0,
    }
}

// Kept: here and below the bounds of a place are clauses: it comes from a slice's length, and a type of it would be built at each field.

// A plain record, decided on numbers alone: the file's length, the place, the record's length and kind, and the length that the kind has.
#[tactic(auto, using(text::proofs::Cases::cases), unfolding(crate::specs::Frames::plain_of))]
fn plain_of(n: usize, at: usize, len: u32, kind: u32, want: u32) -> Result<Frame, Unreadable>
    requires { at + 64 < 2 ^ 64 }
    ensures { result ≡ plain_of n at len kind want }
{
    if n < at + 2 {
        return Err(Unreadable::CutShort);
    }
    if len < 2 || 29 < len {
        return Err(Unreadable::BadLength);
    }
    let next = at + 2 + len as usize;
    if n < next {
        return Err(Unreadable::CutShort);
    }
    if want == 0 {
        return Err(Unreadable::UnknownKind);
    }
    if len != want {
        return Err(Unreadable::BadLength);
    }
    Ok(Frame {
        acts: Where::Plain,
        kind,
        next,
    })
}

#[tactic(auto, using(crate::proofs::Records::plain_as))]
pub(crate) fn plain_frame(s: &[u8], at: usize) -> Result<Frame, Unreadable>
    requires { at + 64 < 2 ^ 64 }
    ensures { result ≡ plain_frame s.now at }
{
    let len = le2(s, at);
    let kind = le2(s, at + 2);
    let parts = byte(s, at + 8);
    plain_of(s.len(), at, len, kind, length_of(kind, u32::from(parts)))
}

// Why reading stops where the file ends before the record's kind does.
#[tactic(auto, using(text::proofs::Cases::cases), unfolding(crate::specs::Frames::kindless_of))]
fn kindless(n: usize, at: usize, len: u32) -> Unreadable
    requires { at < 2 ^ 63 }
    ensures { result ≡ kindless_of n at len }
{
    if n < at + 2 {
        Unreadable::CutShort
    } else if len < 2 || LONGEST_RECORD < len {
        Unreadable::BadLength
    } else {
        Unreadable::CutShort
    }
}

// A record of kind 7 up to the one inside it, of which `inner` is the length.
#[tactic(auto, using(text::proofs::Cases::cases), unfolding(crate::specs::Frames::outer_of))]
fn outer(n: usize, at: usize, len: u32, inner: u32) -> Result<(), Unreadable>
    requires { (at < 2 ^ 63) × (inner < 65536) }
    ensures { result ≡ outer_of n at len inner }
{
    if len < 2 || LONGEST_RECORD < len {
        return Err(Unreadable::BadLength);
    }
    if n < at + 2 + len as usize {
        return Err(Unreadable::CutShort);
    }
    if len < 8 || inner + 6 != len {
        return Err(Unreadable::BadLength);
    }
    Ok(())
}

// A record of kind 7: it ends where the one inside it does, which acts at its slot.
#[tactic(auto, using(crate::proofs::Records::slotted_in, crate::proofs::Records::slotted_stop))]
fn slotted_frame(s: &[u8], at: usize) -> Result<Frame, Unreadable>
    requires { at < 2 ^ 63 }
    ensures { result ≡ slotted_frame s.now at }
{
    outer(s.len(), at, le2(s, at), le2(s, at + 6))?;
    let inside = plain_frame(s, at + 6)?;
    let slot = le2(s, at + 4) as u16;
    Ok(Frame {
        acts: Where::Slot(slot),
        ..inside
    })
}

// A record of any kind.
#[tactic(auto, using(crate::proofs::Records::frame_kindless, crate::proofs::Records::frame_slotted, crate::proofs::Records::frame_plain))]
pub(crate) fn frame(s: &[u8], at: usize) -> Result<Frame, Unreadable>
    requires { at < 2 ^ 63 }
    ensures { result ≡ frame_at s.now at }
{
    if s.len() < at + 4 {
        Err(kindless(s.len(), at, le2(s, at)))
    } else if le2(s, at + 2) == SLOTTED {
        slotted_frame(s, at)
    } else {
        plain_frame(s, at)
    }
}
