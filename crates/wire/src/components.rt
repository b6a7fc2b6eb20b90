// The grammar of components. A production takes a cursor and reads on in the holder that ends at `end`; one that is stopped goes through all
// that follows, so no production looks whether another was refused, and what a stopped one read does not count.
#![tactic(auto, unfolding(crate::specs::Grammar::code_of, crate::specs::Grammar::flag_part, crate::specs::Grammar::first_part, crate::specs::Grammar::party_at, crate::specs::Grammar::party_part, crate::specs::Grammar::partial_of, crate::specs::Grammar::duration_of, crate::specs::Grammar::last_of, crate::specs::Grammar::depth_of, crate::specs::Grammar::known_of, crate::specs::Grammar::number_if, crate::specs::Grammar::made_of, crate::specs::Grammar::bare_of, crate::specs::Grammar::answer_of, crate::specs::Grammar::named_of, crate::specs::Grammar::name_of, crate::specs::Grammar::kind_of, text::specs::Choose::if_eq, text::specs::Choose::if_so))]

ghost use Rattle.std.specs.Prelude.{◌≡◌, ◌≤◌, length};
ghost use Rattle.wire.specs.Grammar.{code_of, flag_part, first_part, party_at, party_part, partial_of, duration_of, last_of, depth_of, known_of, parts_of, number_if, made_of, bare_of, answer_of, invoke_of, result_of, error_of, named_of, name_of, reject_of, kind_of, component_of};

use crate::bytes::{byte, byte_past};
use crate::cursors::{absent, checked, closed, inside, may, need, rest};
use crate::elements::{NOT_OURS, refused};
use crate::values::{ABSENT, clock, listed, party, problem_tag, seconds, there};
use crate::{Component, Cursor, Last, Number, Refusal, Said, quick};

const ANY: usize = 18446744073709551615;

const NO_NAME: u16 = 256;

// Tags: of an identifier, a reject's NULL, an operation or error, what holds others, and a SEQUENCE's own three elements.
pub(crate) const INTEGER: u8 = 2;

const NULL: u8 = 5;

pub(crate) const OBJECT: u8 = 6;

pub(crate) const SEQUENCE: u8 = 48;

pub(crate) const FIRST: u8 = 128;

pub(crate) const PARTY: u8 = 129;

pub(crate) const LAST: u8 = 130;

// ---- operations and errors

// 06 07 00 11 85 60 03 01 NN
fn code(s: &[u8], c: Cursor, end: usize, low: u8, high: u8) -> Cursor
    ensures { result ≡ code_of s.now c end low high }
{
    let e = need(s, c, end, OBJECT, 7, 7);
    checked(listed(s, e.body, low, high), c.at, e)
}

// ---- SEQ: what its own elements say

// The part that a BOOLEAN sets: none where it is absent, `off` for FALSE, `on` for any other byte.
pub(crate) fn flag_part(body: usize, b: u8, off: u8, on: u8) -> u8
    ensures { result ≡ flag_part body b off on }
{
    if body == 0 {
        0
    } else if b == 0 {
        off
    } else {
        on
    }
}

// 80 01 bool
pub(crate) fn first_part(kind: u8, body: usize, b: u8) -> u8
    ensures { (result ≡ first_part kind body b) × (result ≤ 6) }
{
    if kind == 1 {
        flag_part(body, b, 0, 1)
    } else {
        flag_part(body, b, 2, 6)
    }
}

// 81, a number
fn party_at(s: &[u8], e: Cursor) -> Number
    ensures { result ≡ party_at s.now e }
{
    if e.body == 0 {
        ABSENT
    } else {
        party(s, e.body, e.at)
    }
}

// The calling number of an invoke SETUP or ACTIVE and of a result CALLED, the called number of the others.
pub(crate) fn party_part(kind: u8, item: u8, count: u8) -> u8
    ensures { (result ≡ party_part kind item count) × (result ≤ 32) }
{
    match (count, kind, item) {
        (0, _, _) => 0,
        (_, 1, 3) => 32,
        (_, 1, _) | (_, _, 3) => 16,
        _ => 32,
    }
}

fn nothing(cursor: Cursor) -> Last
    ensures { result ≡ record { cursor = cursor; part = 0; duration = 0 } }
{
    Last {
        cursor,
        part: 0,
        duration: 0,
    }
}

// 82 01 bool
fn partial(s: &[u8], c: Cursor, end: usize) -> Last
    ensures { result ≡ partial_of s.now c end }
{
    let cursor = may(s, c, end, LAST, 1, 1);
    Last {
        cursor,
        part: flag_part(cursor.body, byte(s, cursor.body), 0, 8),
        duration: 0,
    }
}

// 82 03 HH MM SS
fn duration(s: &[u8], c: Cursor, end: usize) -> Last
    ensures { result ≡ duration_of s.now c end }
{
    let e = may(s, c, end, LAST, 3, 3);
    if e.body == 0 {
        nothing(e)
    } else {
        Last {
            cursor: checked(clock(s, e.body), c.at, e),
            part: 64,
            duration: seconds(s, e.body),
        }
    }
}

// Only an invoke or result CALLED has a third element of its own.
fn last(s: &[u8], c: Cursor, end: usize, kind: u8, item: u8) -> Last
    ensures { (result ≡ last_of s.now c end kind item) × (result.part ≤ 64) }
{
    if item != 3 {
        nothing(c)
    } else if kind == 1 {
        partial(s, c, end)
    } else {
        duration(s, c, end)
    }
}

// Levels left for what a SEQUENCE holds: it stands at depth 2 in an invoke, at 3 in a result.
fn depth(kind: u8) -> u8
    ensures { result ≡ depth_of kind }
{
    if kind == 1 { 6 } else { 5 }
}

fn known(item: u8) -> u8
    ensures { result ≡ known_of item }
{
    if item == 3 { 3 } else { 2 }
}

// The elements of a SEQUENCE: its own in order, each at most once, then any that are not known.
fn parts(s: &[u8], c: Cursor, end: usize, kind: u8, item: u8) -> Said
    ensures { result ≡ parts_of s.now c end kind item }
{
    let flag = may(s, c, end, FIRST, 1, 1);
    let party = may(s, flag, end, PARTY, 3, 10);
    let number = party_at(s, party);
    let good = checked(there(number), flag.at, party);
    let third = last(s, good, end, kind, item);
    Said {
        cursor: rest(s, third.cursor, end, depth(kind), known(item)),
        parts: first_part(kind, flag.body, byte(s, flag.body))
            + party_part(kind, item, number.count)
            + third.part,
        number,
        duration: third.duration,
    }
}

// ---- components

fn number_if(there: bool, n: Number) -> Number
    ensures { result ≡ number_if there n }
{
    if there { n } else { ABSENT }
}

pub(crate) fn made(kind: u8, item: u8, d: Said, id: u16) -> Component
    ensures { result ≡ made_of kind item d id }
{
    Component {
        kind,
        item,
        parts: d.parts,
        calling: number_if(d.parts / 16 % 2 == 1, d.number),
        called: number_if(d.parts / 32 % 2 == 1, d.number),
        duration: d.duration,
        id,
    }
}

pub(crate) fn bare(kind: u8, item: u8, id: u16) -> Component
    ensures { result ≡ bare_of kind item id }
{
    Component {
        kind,
        item,
        parts: 0,
        calling: ABSENT,
        called: ABSENT,
        duration: 0,
        id,
    }
}

fn answer(c: Cursor, m: Component) -> Result<(Component, usize), Refusal>
    ensures { result ≡ answer_of c m }
{
    if c.number == 0 {
        Ok((m, c.at))
    } else {
        refused(c.number, c.at)
    }
}

// A1 len { id [80 01 xx] op SEQ }
fn invoke(s: &[u8], at: usize, end: usize) -> Result<(Component, usize), Refusal>
    ensures { result ≡ invoke_of s.now at end }
{
    let id = need(s, absent(at), end, INTEGER, 1, 1);
    let linked = may(s, id, end, FIRST, 1, 1);
    let operation = code(s, linked, end, 1, 3);
    let sequence = need(s, operation, end, SEQUENCE, 0, ANY);
    let item = byte_past(s, operation.body, 6);
    let said = parts(s, inside(sequence), sequence.at, 1, item);
    let ended = closed(s, said.cursor, end);
    answer(ended, made(1, item, said, u16::from(byte(s, id.body))))
}

// A2 len { id 30 len { op SEQ } }
fn result(s: &[u8], at: usize, end: usize) -> Result<(Component, usize), Refusal>
    ensures { result ≡ result_of s.now at end }
{
    let id = need(s, absent(at), end, INTEGER, 1, 1);
    let held = need(s, id, end, SEQUENCE, 0, ANY);
    let operation = code(s, inside(held), held.at, 1, 3);
    let sequence = need(s, operation, held.at, SEQUENCE, 0, ANY);
    let item = byte_past(s, operation.body, 6);
    let said = parts(s, inside(sequence), sequence.at, 2, item);
    let ended = closed(s, closed(s, said.cursor, held.at), end);
    answer(ended, made(2, item, said, u16::from(byte(s, id.body))))
}

// A3 len { id err }
fn error(s: &[u8], at: usize, end: usize) -> Result<(Component, usize), Refusal>
    ensures { result ≡ error_of s.now at end }
{
    let id = need(s, absent(at), end, INTEGER, 1, 1);
    let module = code(s, id, end, 4, 12);
    let ended = closed(s, module, end);
    let item = byte_past(s, module.body, 6);
    answer(ended, bare(3, item, u16::from(byte(s, id.body))))
}

// The identifier of a reject, where it has no NULL in its place.
fn named(s: &[u8], n: Cursor, end: usize) -> Cursor
    ensures { result ≡ named_of s.now n end }
{
    if n.body == 0 {
        need(s, n, end, INTEGER, 1, 1)
    } else {
        n
    }
}

fn name(n: Cursor, b: u8) -> u16
    ensures { result ≡ name_of n b }
{
    if n.body == 0 { u16::from(b) } else { NO_NAME }
}

// A4 len { id|05 00  8p 01 xx }
fn reject(s: &[u8], at: usize, end: usize) -> Result<(Component, usize), Refusal>
    ensures { result ≡ reject_of s.now at end }
{
    let null = may(s, absent(at), end, NULL, 0, 0);
    let id = named(s, null, end);
    let problem = need(s, id, end, problem_tag(byte(s, id.at)), 1, 1);
    let ended = closed(s, problem, end);
    answer(ended, bare(4, 0, name(null, byte(s, id.body))))
}

// The component that fills the bytes up to their end, from its contents on: by the grammar, where it has not the usual form.
fn by_kind(s: &[u8], place: usize, tag: u8, at: usize) -> Result<(Component, usize), Refusal>
    ensures { result ≡ kind_of s.now place tag at }
{
    let end = s.len();
    match tag {
        161 => quick::invoke(s, at).map_or_else(|| invoke(s, at, end), |m| Ok((m, end))),
        162 => quick::result(s, at).map_or_else(|| result(s, at, end), |m| Ok((m, end))),
        163 => quick::error(s, at).map_or_else(|| error(s, at, end), |m| Ok((m, end))),
        164 => reject(s, at, end),
        _ => refused(NOT_OURS, place),
    }
}

// The component at a place. What follows it is not looked at.
pub fn read_component(s: &[u8], at: usize) -> Result<(Component, usize), Refusal>
    ensures { result ≡ component_of s.now at }
{
    match quick::opening(s, at) {
        Err(number) => refused(number, at),
        Ok(e) => by_kind(&s[..e.next], at, e.tag, e.body),
    }
}
