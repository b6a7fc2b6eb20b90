// The usual form of a component: every length in one byte, and no element but the module's own, each in its place. Neighbours mostly send
// it, so it is looked for first; what has any other form, or is refused, is left to the grammar.
#![tactic(auto, unfolding(crate::specs::Grammar::flag_part, crate::specs::Quick::begins_of, crate::specs::Quick::short_of, crate::specs::Quick::after_of, crate::specs::Quick::number_after, crate::specs::Quick::number_at, crate::specs::Quick::last_after, crate::specs::Quick::last_part, crate::specs::Quick::last_seconds, crate::specs::Quick::last_ok, crate::specs::Quick::number_ok, crate::specs::Quick::said_of, crate::specs::Quick::coded_at, text::specs::Choose::if_lt, text::specs::Choose::if_eq, text::specs::Choose::if_so))]

ghost use Rattle.std.specs.Prelude.{◌≡◌, ◌+◌, ◌≤◌, ◌<◌, ◌^◌, length};
ghost use Rattle.wire.specs.Cursors.{absent_of};
ghost use Rattle.wire.specs.Heads.{head_of};
ghost use Rattle.wire.specs.Grammar.{cut_short, parts_of, invoke_of, result_of, error_of};
ghost use Rattle.wire.specs.Quick.{begins_of, short_of, after_of, number_after, number_at, last_after, last_part, last_seconds, last_ok, number_ok, said_of, coded_at, SaidAs, ReadAs};

use crate::bytes::{byte, byte_past};
use crate::components::{
    FIRST, INTEGER, LAST, OBJECT, PARTY, SEQUENCE, bare, first_part, flag_part, made, party_part,
};
use crate::cursors::absent;
use crate::heads::{CUT_SHORT, head};
use crate::values::{ABSENT, clock, listed, party, seconds, there};
use crate::{Component, Element, Number, Said};

// An element of this tag and size, all of it.
fn begins(s: &[u8], i: usize, tag: u8, size: usize) -> bool
    ensures { result ≡ begins_of s.now i tag size }
{
    i < s.len()
        && 2 <= s.len() - i
        && size <= s.len() - i - 2
        && s[i] == tag
        && usize::from(s[i + 1]) == size
}

// The byte after a tag of one byte, where so many bytes follow it; 128 where not. Below 128 it is the element's length.
// Kept: 128 and no Option, as `short_of` of specs/Quick.antt has it; so too `after`, with its own place for none, as `after_of` has it.
fn short(s: &[u8], at: usize) -> usize
    ensures { result ≡ short_of s.now at }
{
    let tag = byte(s, at);
    let size = usize::from(byte_past(s, at, 1));
    if tag % 32 != 31 && begins(s, at, tag, size) {
        size
    } else {
        128
    }
}

// The head of the component at a place.
pub fn opening(s: &[u8], at: usize) -> Result<Element, u8>
    ensures { result ≡ head_of s.now at (length s.now) cut_short }
{
    let size = short(s, at);
    if size < 128 {
        Ok(Element {
            tag: byte(s, at),
            body: at + 2,
            next: at + 2 + size,
        })
    } else {
        head(s, at, s.len(), CUT_SHORT)
    }
}

// The place after it; its own where it does not stand there.
fn after(s: &[u8], i: usize, tag: u8, size: usize) -> usize
    ensures { result ≡ after_of s.now i tag size }
{
    if begins(s, i, tag, size) {
        i + (size + 2)
    } else {
        i
    }
}

fn number_after(s: &[u8], i: usize) -> usize
    ensures { result ≡ number_after s.now i }
{
    let size = byte_past(s, i, 1);
    if (3..=10).contains(&size) {
        after(s, i, PARTY, usize::from(size))
    } else {
        i
    }
}

fn number_at(s: &[u8], i: usize, next: usize) -> Number
    ensures { result ≡ number_at s.now i next }
{
    if next.saturating_sub(i) < 2 {
        ABSENT
    } else {
        party(s, i + 2, next)
    }
}

// The last, which only CALLED has.
fn last_after(s: &[u8], i: usize, kind: u8, item: u8) -> usize
    ensures { result ≡ last_after s.now i kind item }
{
    if item != 3 {
        i
    } else if kind == 1 {
        after(s, i, LAST, 1)
    } else {
        after(s, i, LAST, 3)
    }
}

fn last_part(s: &[u8], i: usize, next: usize, kind: u8) -> u8
    ensures { (result ≡ last_part s.now i next kind) × (result ≤ 64) }
{
    let size = next.saturating_sub(i);
    if kind == 1 {
        flag_part(size, byte_past(s, i, 2), 0, 8)
    } else if size < 2 {
        0
    } else {
        64
    }
}

fn last_seconds(s: &[u8], i: usize, next: usize, kind: u8) -> u32
    ensures { result ≡ last_seconds s.now i next kind }
{
    if kind == 1 || next.saturating_sub(i) < 2 {
        0
    } else {
        seconds(s, i + 2)
    }
}

fn last_ok(s: &[u8], i: usize, next: usize, kind: u8) -> bool
    ensures { result ≡ last_ok s.now i next kind }
{
    kind == 1 || next.saturating_sub(i) < 2 || clock(s, i + 2)
}

// Where the BOOLEAN ends at `flag` and the number at `party`.
fn said(s: &[u8], i: usize, flag: usize, party: usize, number: Number, kind: u8, item: u8) -> Said
    ensures { result ≡ said_of s.now i flag party number kind item }
{
    let first = first_part(kind, flag.saturating_sub(i), byte_past(s, i, 2));
    Said {
        cursor: absent(s.len()),
        parts: first + party_part(kind, item, number.count) + last_part(s, party, s.len(), kind),
        number,
        duration: last_seconds(s, party, s.len(), kind),
    }
}

// No number, or a good one.
fn number_ok(size: usize, n: Number) -> bool
    ensures { result ≡ number_ok size n }
{
    size < 2 || there(n)
}

// The elements of a SEQUENCE, from i to the end.
fn parts(s: &[u8], i: usize, kind: u8, item: u8) -> Option<Said>
    ensures { SaidAs s.now (parts_of s.now (absent_of i) (length s.now) kind item) result }
{
    let flag = after(s, i, FIRST, 1);
    let party = number_after(s, flag);
    let end = last_after(s, party, kind, item);
    let number = number_at(s, flag, party);
    if end == s.len()
        && number_ok(party.saturating_sub(flag), number)
        && last_ok(s, party, end, kind)
    {
        Some(said(s, i, flag, party, number, kind, item))
    } else {
        None
    }
}

// 06 07 00 11 85 60 03 01 NN
fn coded(s: &[u8], i: usize, low: u8, high: u8) -> bool
    requires { i + 2 < 2 ^ 64 }
    ensures { result ≡ coded_at s.now i low high }
{
    begins(s, i, OBJECT, 7) && listed(s, i + 2, low, high)
}

// { id op SEQ }
pub fn invoke(s: &[u8], at: usize) -> Option<Component>
    ensures { ReadAs s.now (invoke_of s.now at (length s.now)) result }
{
    let size = s.len().checked_sub(at)?.checked_sub(14)?;
    if 127 < size
        || !begins(s, at, INTEGER, 1)
        || !coded(s, at + 3, 1, 3)
        || !begins(s, at + 12, SEQUENCE, size)
    {
        return None;
    }
    let item = s[at + 11];
    let said = parts(s, at + 14, 1, item)?;
    Some(made(1, item, said, u16::from(s[at + 2])))
}

// { id 30 len { op SEQ } }
pub fn result(s: &[u8], at: usize) -> Option<Component>
    ensures { ReadAs s.now (result_of s.now at (length s.now)) result }
{
    let size = s.len().checked_sub(at)?.checked_sub(16)?;
    if 116 < size
        || !begins(s, at, INTEGER, 1)
        || !begins(s, at + 3, SEQUENCE, size + 11)
        || !coded(s, at + 5, 1, 3)
        || !begins(s, at + 14, SEQUENCE, size)
    {
        return None;
    }
    let item = s[at + 13];
    let said = parts(s, at + 16, 2, item)?;
    Some(made(2, item, said, u16::from(s[at + 2])))
}

// { id err }
pub fn error(s: &[u8], at: usize) -> Option<Component>
    ensures { ReadAs s.now (error_of s.now at (length s.now)) result }
{
    if s.len() < 12
        || s.len() - 12 != at
        || !begins(s, at, INTEGER, 1)
        || !coded(s, at + 3, 4, 12)
    {
        return None;
    }
    Some(bare(3, s[at + 11], u16::from(s[at + 2])))
}
