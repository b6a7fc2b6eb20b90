// An element and the elements that it holds. The two readers call each other: what an element holds has fewer bytes than the element, and
// one level less is left for it.
ghost use Rattle.std.specs.Prelude.{◌≡◌, Err};
ghost use Rattle.wire.specs.Answers.{refusal};
ghost use Rattle.wire.specs.Elements.{own_of, element_of, sequence_of};

use crate::Refusal;
use crate::heads::{BAD_LENGTH, head};

pub const TOO_DEEP: u8 = 13;

pub const NOT_OURS: u8 = 14;

pub(crate) fn refused<T>(number: u8, place: usize) -> Result<T, Refusal>
    ensures { result ≡ Err (refusal number place) }
{
    Err(Refusal { number, place })
}

// The tag of a known part, [0] to [known - 1].
#[tactic(auto, unfolding(crate::specs::Elements::own_of))]
fn own(tag: u8, known: u8) -> bool
    ensures { result ≡ own_of tag known }
{
    tag / 64 == 2 && tag % 32 < known
}

// The element at a place, all of it before `end`, with what it holds.
#[cycle(element_sequence)]
pub fn element(s: &[u8], at: usize, end: usize, depth: u8, known: u8) -> Result<usize, Refusal>
    ensures { result ≡ element_of s.now at end depth known }
{
    // Kept: a match, here and in `read_component`: tried by `map_err` and `?`, and what `returns` must prove did not close.
    match head(s, at, end, BAD_LENGTH) {
        Err(number) => refused(number, at),
        Ok(_) if depth == 0 => refused(TOO_DEEP, at),
        Ok(e) if own(e.tag, known) => refused(NOT_OURS, at),
        Ok(e) if e.tag / 32 % 2 == 1 => sequence(s, e.body, e.next, depth - 1, 0),
        Ok(e) => Ok(e.next),
    }
}

// The elements from a place up to `end`, one after the other.
#[cycle(element_sequence)]
pub fn sequence(s: &[u8], at: usize, end: usize, depth: u8, known: u8) -> Result<usize, Refusal>
    ensures { result ≡ sequence_of s.now at end depth known }
{
    // Kept: a `while`, here and in parameters.rt: the next place is what was read there, no count, and `several` counts components.
    let mut place = at;
    while place < end {
        place = element(s, place, end, depth, known)?;
    }
    Ok(place)
}
