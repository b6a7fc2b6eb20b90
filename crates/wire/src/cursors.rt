// A cursor over the elements of one holder, up to the holder's `end`. It is taken and given by value; once stopped it stays.
#![tactic(auto, unfolding(crate::specs::Cursors::stopped_of, crate::specs::Cursors::absent_of, crate::specs::Cursors::opened_of, crate::specs::Cursors::inside_of, crate::specs::Cursors::sized_of, crate::specs::Cursors::look_of, crate::specs::Cursors::need_of, crate::specs::Cursors::may_of, crate::specs::Cursors::extra_of, crate::specs::Cursors::closed_of, crate::specs::Cursors::checked_of, crate::specs::Cursors::seen_of, crate::specs::Cursors::rest_of, text::specs::Choose::if_lt, text::specs::Choose::if_le, text::specs::Choose::if_eq, text::specs::Choose::if_so))]

ghost use Rattle.std.specs.Prelude.{◌≡◌};
ghost use Rattle.wire.specs.Cursors.{stopped_of, absent_of, opened_of, inside_of, sized_of, look_of, need_of, may_of, extra_of, closed_of, checked_of, seen_of, rest_of};

use crate::bytes::byte;
use crate::elements::{NOT_OURS, sequence};
use crate::heads::{BAD_LENGTH, head};
use crate::{Cursor, Element, Refusal};

pub fn stopped(number: u8, place: usize) -> Cursor
    ensures { result ≡ stopped_of number place }
{
    Cursor {
        number,
        at: place,
        body: 0,
    }
}

pub fn absent(at: usize) -> Cursor
    ensures { result ≡ absent_of at }
{
    opened(0, at)
}

fn opened(body: usize, next: usize) -> Cursor
    ensures { result ≡ opened_of body next }
{
    Cursor {
        number: 0,
        at: next,
        body,
    }
}

// To the first of the elements that the element last read holds.
pub fn inside(c: Cursor) -> Cursor
    ensures { result ≡ inside_of c }
{
    if c.number == 0 { absent(c.body) } else { c }
}

// The element asked for, of a size that it can have.
fn sized(at: usize, body: usize, next: usize, least: usize, most: usize) -> Cursor
    ensures { result ≡ sized_of at body next least most }
{
    let size = next.saturating_sub(body);
    if size < least || most < size {
        stopped(NOT_OURS, at)
    } else {
        opened(body, next)
    }
}

fn look(h: Result<Element, u8>, at: usize, tag: u8, least: usize, most: usize) -> Cursor
    ensures { result ≡ look_of h at tag least most }
{
    match h {
        Err(n) => stopped(n, at),
        Ok(e) if e.tag == tag => sized(at, e.body, e.next, least, most),
        Ok(_) => stopped(NOT_OURS, at),
    }
}

// An element that must stand here.
pub fn need(s: &[u8], c: Cursor, end: usize, tag: u8, least: usize, most: usize) -> Cursor
    ensures { result ≡ need_of s.now c end tag least most }
{
    if c.number != 0 {
        c
    } else if end <= c.at {
        stopped(NOT_OURS, c.at)
    } else {
        look(head(s, c.at, end, BAD_LENGTH), c.at, tag, least, most)
    }
}

// An element that may stand here. What else stands here is looked at by whoever needs it, or ends the holder.
pub fn may(s: &[u8], c: Cursor, end: usize, tag: u8, least: usize, most: usize) -> Cursor
    ensures { result ≡ may_of s.now c end tag least most }
{
    if c.number != 0 {
        c
    } else if c.at < end && byte(s, c.at) == tag {
        need(s, c, end, tag, least, most)
    } else {
        absent(c.at)
    }
}

fn extra(h: Result<Element, u8>, at: usize) -> Cursor
    ensures { result ≡ extra_of h at }
{
    match h {
        Err(n) => stopped(n, at),
        Ok(_) => stopped(NOT_OURS, at),
    }
}

// Nothing more may stand in the holder.
pub fn closed(s: &[u8], c: Cursor, end: usize) -> Cursor
    ensures { result ≡ closed_of s.now c end }
{
    if c.number != 0 || end <= c.at {
        c
    } else {
        extra(head(s, c.at, end, BAD_LENGTH), c.at)
    }
}

// The contents of the element last read, which began at `from`, must be ok.
pub fn checked(ok: bool, from: usize, c: Cursor) -> Cursor
    ensures { result ≡ checked_of ok from c }
{
    if c.body == 0 || ok {
        c
    } else {
        stopped(NOT_OURS, from)
    }
}

fn seen(e: Result<usize, Refusal>) -> Cursor
    ensures { result ≡ seen_of e }
{
    match e {
        Ok(next) => absent(next),
        Err(r) => stopped(r.number, r.place),
    }
}

// Elements that are not known, up to the holder's end.
pub fn rest(s: &[u8], c: Cursor, end: usize, depth: u8, known: u8) -> Cursor
    ensures { result ≡ rest_of s.now c end depth known }
{
    if c.number != 0 {
        c
    } else if end <= c.at {
        absent(c.at)
    } else {
        seen(sequence(s, c.at, end, depth, known))
    }
}
