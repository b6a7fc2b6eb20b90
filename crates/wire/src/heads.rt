// An element's first bytes: its tag and its length, short or long. `short` is the number for an element that passes `end`: 11 for a
// component, 12 for what stands in one.
// Kept: slice, places and `short` are handed on one by one: each function takes them as its definition of specs/Heads.antt does.
// Kept: the number alone stands in Err, as in the definitions of specs/Heads.antt, which know no place; who asks makes the Refusal.
#![tactic(auto, unfolding(crate::specs::Heads::length_place, crate::specs::Heads::filled_of, crate::specs::Heads::length_of, crate::specs::Heads::head_from, crate::specs::Heads::head_of, text::specs::Choose::if_lt, text::specs::Choose::if_le, text::specs::Choose::if_eq, text::specs::Choose::if_so))]

ghost use Rattle.std.specs.Prelude.{◌≡◌, ◌≤◌, ◌<◌, ℕ, IfOk};
ghost use Rattle.wire.specs.Heads.{tag_after, length_place, spanned_of, length_of, head_from, head_of};

use crate::Element;
use crate::bytes::{big, byte};

pub const CUT_SHORT: u8 = 11;

pub const BAD_LENGTH: u8 = 12;

// The place after a tag number: its last byte is the first below 128.
fn tag_after(s: &[u8], i: usize, end: usize) -> usize
    ensures { result ≡ tag_after s.now i end }
{
    for j in i..end {
        if byte(s, j) < 128 {
            return j + 1;
        }
    }
    i.max(end)
}

// A tag of several bytes has all ones in the low five bits of its first.
fn length_place(s: &[u8], at: usize, end: usize) -> usize
    requires { at < end }
    ensures { result ≡ length_place s.now at end }
{
    if byte(s, at) % 32 == 31 {
        tag_after(s, at + 1, end)
    } else {
        at + 1
    }
}

// Where the contents begin and how many bytes they have, by the first byte of the length, which stands before `after`. (No Element yet:
// one that is handed on in a Result is copied with the bytes beside its tag.)
fn measured(s: &[u8], first: u8, after: usize, end: usize, short: u8) -> Result<(usize, usize), u8>
    requires { after ≤ end }
    ensures of { (tag : ℕ) → spanned_of tag end short result ≡ length_of s.now tag first after end short }
    ensures body { IfOk result (λ m. m.0 ≤ end) }
{
    match first {
        0..=127 => Ok((after, usize::from(first))),
        128 | 255 => Err(BAD_LENGTH),
        _ => {
            let k = usize::from(first - 128);
            if end - after < k {
                Err(short)
            } else {
                Ok((after + k, big(s, after, k)))
            }
        }
    }
}

// With the length at `place`: none of the contents may stand past `end`.
fn headed(s: &[u8], tag: u8, place: usize, end: usize, short: u8) -> Result<Element, u8>
    ensures { result ≡ head_from s.now tag place end short }
{
    if end <= place {
        return Err(short);
    }
    let (body, len) = measured(s, byte(s, place), place + 1, end, short)?;
    if end - body < len {
        Err(short)
    } else {
        Ok(Element {
            tag,
            body,
            next: body + len,
        })
    }
}

pub fn head(s: &[u8], at: usize, end: usize, short: u8) -> Result<Element, u8>
    ensures { result ≡ head_of s.now at end short }
{
    if end <= at {
        Err(short)
    } else {
        headed(s, byte(s, at), length_place(s, at, end), end, short)
    }
}
