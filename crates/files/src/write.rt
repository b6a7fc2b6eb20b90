// The writer: an event as a whole record at the start of a lent buffer. Its fields are judged first, then the room; where either is bad
// nothing is stored. Each length stands as a number beside the fields that it counts: the table of fields, which is the reader's too, holds
// it to them.
ghost use Rattle.std.specs.Prelude.{◌≡◌, ◌+◌, ◌*◌, ◌%◌, ◌^◌, ◌<◌, ◌≤◌, [], length, IfSome};
ghost use Rattle.text.specs.Choose.{if_so};
ghost use Rattle.text.specs.Text.{Put};
ghost use Rattle.rows.specs.Telephone.{same_number};
ghost use Rattle.rows.specs.declared.Event.TheVariants.{Opening, Ask, Received, FromAccess, Expiry, Time};
ghost use Rattle.files.specs.Bodies.{count_byte, code_of, item_of, number_values, front_values, carried_values, head_of, record_of, slot_head, plain_at};
ghost use Rattle.files.specs.Bytes.{le_of, part};
ghost use Rattle.files.specs.Fields.{number_fields, front_fields, carried_fields, bytes_of};
ghost use Rattle.files.specs.Frames.{length_of};
ghost use Rattle.files.specs.declared.Unwritten.TheVariants.{BadField, NoRoom};
ghost use Rattle.files.specs.Write.{written_of, left_of, written_at, left_at, gives_back, slot_gives, slot_leaves, nature_with, number_with, message_with};

use crate::bodies::{component_of, plain_at};
use crate::frames::{SLOTTED, length_of};
use crate::{Unreadable, Unwritten};
use rows::{Component, Event, Message, Nature, Number};

// ---- The bytes of a number, least first, where there is room for them: no test of each, so that a field is stored at once.

// Kept: the writers of records take a buffer and a place in it: a page would test each byte against the buffer's end, where room is known.

// Kept: these become one store; a loop takes 15 instructions for it, `to_le_bytes` 6 more, and messages are at 2.07 of plain C's already.

fn put_1(out: &mut [u8], at: usize, v: u8) -> usize
    requires { at + 1 ≤ length out.old }
    ensures put { Put out.old at (le_of 1 v) out.new result }
    ensures value { result ≡ at + 1 }
{
    out[at] = v;
    at + 1
}

pub fn put_2(out: &mut [u8], at: usize, v: u64) -> usize
    requires { at + 2 ≤ length out.old }
    ensures put { Put out.old at (le_of 2 v) out.new result }
    ensures value { result ≡ at + 2 }
{
    out[at] = (v % 256) as u8;
    out[at + 1] = (v / 256 % 256) as u8;
    at + 2
}

fn put_4(out: &mut [u8], at: usize, v: u64) -> usize
    requires { at + 4 ≤ length out.old }
    ensures put { Put out.old at (le_of 4 v) out.new result }
    ensures value { result ≡ at + 4 }
{
    let to = put_2(out, at, v);
    put_2(out, to, v / 65536)
}

fn put_8(out: &mut [u8], at: usize, v: u64) -> usize
    requires { at + 8 ≤ length out.old }
    ensures put { Put out.old at (le_of 8 v) out.new result }
    ensures value { result ≡ at + 8 }
{
    let to = put_4(out, at, v);
    put_4(out, to, v / 4294967296)
}

// ---- Fields

// The count byte. Of a count in range nothing is cut off.
// Kept: a function with a name, as code_of and item_of below: a From would not say which of the numbers that a record has is meant.
pub fn count_byte(nature: Nature, count: u8) -> u8
    ensures { result ≡ count_byte nature count % 256 }
{
    match nature {
        Nature::National => count,
        Nature::International => 128u8.wrapping_add(count),
    }
}

// A number: its count byte, and 8 bytes of value.
fn put_number(out: &mut [u8], at: usize, n: Number) -> usize
    requires { at + 9 ≤ length out.old }
    ensures put { Put out.old at (bytes_of (number_fields 1) (number_values n)) out.new result }
    ensures value { result ≡ at + 9 }
{
    let to = put_1(out, at, count_byte(n.nature, n.count));
    put_8(out, to, n.value)
}

// One that has no bytes where its part is not there.
fn put_number_if(out: &mut [u8], at: usize, present: bool, n: Number) -> usize
    requires { at + if_so present 9 0 ≤ length out.old }
    ensures put { Put out.old at (if_so present (bytes_of (number_fields 1) (number_values n)) []) out.new result }
    ensures value { result ≡ at + if_so present 9 0 }
{
    if present { put_number(out, at, n) } else { at }
}

fn put_duration_if(out: &mut [u8], at: usize, present: bool, seconds: u32) -> usize
    requires { at + if_so present 4 0 ≤ length out.old }
    ensures { Put out.old at (if_so present (le_of 4 seconds) []) out.new result }
{
    if present {
        put_4(out, at, u64::from(seconds))
    } else {
        at
    }
}

// The numbers and the duration that are present follow one another.
fn put_carried(out: &mut [u8], at: usize, m: Message) -> usize
    requires { at + 9 * part m.parts 16 + 9 * part m.parts 32 + 4 * part m.parts 64 ≤ length out.old }
    ensures { Put out.old at (bytes_of (carried_fields m.parts) (carried_values m)) out.new result }
{
    let mut to = put_number_if(out, at, m.parts / 16 % 2 == 1, m.calling);
    to = put_number_if(out, to, m.parts / 32 % 2 == 1, m.called);
    put_duration_if(out, to, m.parts / 64 % 2 == 1, m.duration)
}

pub fn code_of(component: Component) -> u8
    ensures { result ≡ code_of component }
{
    match component {
        Component::Absent(_) => 0,
        Component::Invoke(_) => 1,
        Component::Result(_) => 2,
        Component::Error(_) => 3,
        Component::Reject(_) => 4,
        Component::Unknown(code, _) => code,
    }
}

pub fn item_of(component: Component) -> u8
    ensures { result ≡ item_of component }
{
    match component {
        Component::Absent(n)
        | Component::Invoke(n)
        | Component::Result(n)
        | Component::Error(n)
        | Component::Reject(n)
        | Component::Unknown(_, n) => n,
    }
}

// ---- Records, where there is room

// The length, which counts the bytes that follow it, and the kind.
fn put_head(out: &mut [u8], len: u32, kind: u32) -> usize
    requires { 4 ≤ length out.old }
    ensures put { Put out.old 0 (head_of len kind) out.new result }
    ensures value { result ≡ 4 }
{
    let to = put_2(out, 0, u64::from(len));
    put_2(out, to, u64::from(kind))
}

fn put_opening(out: &mut [u8], role: u8, flags: u8, own: Number) -> usize
    requires { 15 ≤ length out.old }
    ensures { Put out.old 0 (record_of (Opening role flags own)) out.new result }
{
    let mut to = put_head(out, 13, 1);
    to = put_1(out, to, role);
    to = put_1(out, to, flags);
    put_number(out, to, own)
}

fn put_ask(out: &mut [u8], item: u8, called: Number) -> usize
    requires { 14 ≤ length out.old }
    ensures { Put out.old 0 (record_of (Ask item called)) out.new result }
{
    let mut to = put_head(out, 12, 2);
    to = put_1(out, to, item);
    put_number(out, to, called)
}

// A message: its first five bytes, and then what it carries.
fn put_front(out: &mut [u8], at: usize, m: Message) -> usize
    requires { at + 5 ≤ length out.old }
    ensures put { Put out.old at (bytes_of front_fields (front_values m)) out.new result }
    ensures value { result ≡ at + 5 }
{
    let mut to = put_1(out, at, m.kind);
    to = put_1(out, to, m.cause);
    to = put_1(out, to, code_of(m.component));
    to = put_1(out, to, item_of(m.component));
    put_1(out, to, m.parts)
}

// How many bytes its record has, with the two of its length.
pub fn message_size(parts: u8) -> usize
    ensures { result ≡ 2 + length_of 3 parts }
{
    2 + length_of(3, u32::from(parts)) as usize
}

pub fn put_message(out: &mut [u8], m: Message) -> usize
    requires { 2 + length_of 3 m.parts ≤ length out.old }
    ensures { Put out.old 0 (record_of (Received m)) out.new result }
{
    let len = length_of(3, u32::from(m.parts));
    let mut to = put_head(out, len, 3);
    to = put_front(out, to, m);
    put_carried(out, to, m)
}

fn put_access(out: &mut [u8], item: u8, error: u8) -> usize
    requires { 6 ≤ length out.old }
    ensures { Put out.old 0 (record_of (FromAccess item error)) out.new result }
{
    let mut to = put_head(out, 4, 4);
    to = put_1(out, to, item);
    put_1(out, to, error)
}

fn put_expiry(out: &mut [u8]) -> usize
    requires { 4 ≤ length out.old }
    ensures { Put out.old 0 (record_of Expiry) out.new result }
{
    put_head(out, 2, 5)
}

fn put_time(out: &mut [u8], seconds: u32) -> usize
    requires { 8 ≤ length out.old }
    ensures { Put out.old 0 (record_of (Time seconds)) out.new result }
{
    let to = put_head(out, 6, 6);
    put_4(out, to, u64::from(seconds))
}

// ---- Each kind: 3, then 8, then the record

// Kept: a writer for each kind: by one of an Event a host's expiries count 3.12 of plain C's instructions (1.12 so), where 2 is asked for.

// What refuses an event: the field of it that is bad; or a record longer than the room.
fn judge(bad: Option<u8>, size: usize, room: usize) -> Result<(), Unwritten>
    ensures field { IfSome bad (λ k. result ≡ Err (BadField k)) }
    ensures narrow { bad ≡ None → room < size → result ≡ Err NoRoom }
    ensures good { bad ≡ None → size ≤ room → result ≡ Ok tt }
{
    match bad {
        Some(field) => Err(Unwritten::BadField(field)),
        None if room < size => Err(Unwritten::NoRoom),
        None => Ok(()),
    }
}

fn write_opening(role: u8, flags: u8, own: Number, out: &mut [u8]) -> Result<usize, Unwritten>
    ensures { (result ≡ written_of (Opening role flags own) out.old)
        × (out.new ≡ left_of (Opening role flags own) out.old) }
{
    judge(rows::opening_bad(role, flags, own), 15, out.len())?;
    Ok(put_opening(out, role, flags, own))
}

fn write_ask(item: u8, called: Number, out: &mut [u8]) -> Result<usize, Unwritten>
    ensures { (result ≡ written_of (Ask item called) out.old)
        × (out.new ≡ left_of (Ask item called) out.old) }
{
    judge(rows::ask_bad(item, called), 14, out.len())?;
    Ok(put_ask(out, item, called))
}

fn write_message(m: Message, out: &mut [u8]) -> Result<usize, Unwritten>
    ensures { (result ≡ written_of (Received m) out.old) × (out.new ≡ left_of (Received m) out.old) }
{
    judge(rows::message_bad(m), message_size(m.parts), out.len())?;
    Ok(put_message(out, m))
}

fn write_access(item: u8, error: u8, out: &mut [u8]) -> Result<usize, Unwritten>
    ensures { (result ≡ written_of (FromAccess item error) out.old)
        × (out.new ≡ left_of (FromAccess item error) out.old) }
{
    judge(rows::access_bad(item, error), 6, out.len())?;
    Ok(put_access(out, item, error))
}

fn write_expiry(out: &mut [u8]) -> Result<usize, Unwritten>
    ensures { (result ≡ written_of Expiry out.old) × (out.new ≡ left_of Expiry out.old) }
{
    judge(None, 4, out.len())?;
    Ok(put_expiry(out))
}

fn write_time(seconds: u32, out: &mut [u8]) -> Result<usize, Unwritten>
    ensures { (result ≡ written_of (Time seconds) out.old) × (out.new ≡ left_of (Time seconds) out.old) }
{
    judge(rows::time_bad(seconds), 8, out.len())?;
    Ok(put_time(out, seconds))
}

// ---- For hosts

// Any event.
pub fn write_event(e: Event, out: &mut [u8]) -> Result<usize, Unwritten>
    ensures { (result ≡ written_of e out.old) × (out.new ≡ left_of e out.old) }
{
    match e {
        Event::Opening(role, flags, own) => write_opening(role, flags, own, out),
        Event::Ask(item, called) => write_ask(item, called, out),
        Event::Received(m) => write_message(m, out),
        Event::FromAccess(item, error) => write_access(item, error, out),
        Event::Expiry => write_expiry(out),
        Event::Time(seconds) => write_time(seconds, out),
    }
}

// The six bytes before a record that stands inside one of kind 7: length, kind and slot. `inner` is its length in bytes.
fn put_slot_head(out: &mut [u8], inner: usize, slot: u16) -> usize
    requires { (6 ≤ length out.old) × (inner < 2 ^ 16) }
    ensures put { Put out.old 0 (slot_head inner slot) out.new result }
    ensures value { result ≡ 6 }
{
    let to = put_head(out, inner as u32 + 4, SLOTTED);
    put_2(out, to, u64::from(slot))
}

// Any event at a slot: a record of kind 7. The record inside is written first, where it will stand, so that it is judged once.
pub fn write_at_slot(slot: u16, e: Event, out: &mut [u8]) -> Result<usize, Unwritten>
    ensures { (result ≡ written_at slot e out.old) × (out.new ≡ left_at slot e out.old) }
{
    if out.len() < 6 {
        return write_event(e, &mut out[..0]);
    }
    let n = write_event(e, &mut out[6..])?;
    put_slot_head(out, n, slot);
    Ok(n + 6)
}

// An answer as a host in C is given it: 0, 8, or 3 with the field's ordinal above it.
fn gives_back(answer: Result<usize, Unwritten>) -> u32
    ensures { result ≡ gives_back answer }
{
    match answer {
        Ok(_) => 0,
        Err(Unwritten::BadField(field)) => 3 + 256 * u32::from(field),
        Err(Unwritten::NoRoom) => 8,
    }
}

// What a host in C passes for a telephone number: whether it is international, its count and its value.
fn nature_with(international: bool) -> Nature
    ensures { result ≡ nature_with international }
{
    if international {
        Nature::International
    } else {
        Nature::National
    }
}

fn number_with(international: bool, count: u8, value: u64) -> Number
    ensures { result ≡ number_with international count value }
{
    Number {
        nature: nature_with(international),
        count,
        value,
    }
}

// Each kind for a host in C. What they give is the number and the ordinal; the length stands in the record's first two bytes.
// Kept: here and below a number is three arguments (international, count, value), and the answer a u32: a host in C has these (rev.h).
pub fn rev_write_opening(
    role: u8,
    flags: u8,
    international: bool,
    count: u8,
    value: u64,
    out: &mut [u8],
) -> u32
    ensures { (result ≡ gives_back (written_of (Opening role flags (number_with international count value)) out.old))
        × (out.new ≡ left_of (Opening role flags (number_with international count value)) out.old) }
{
    let own = number_with(international, count, value);
    gives_back(write_opening(role, flags, own, out))
}

pub fn rev_write_request(
    request: u8,
    international: bool,
    count: u8,
    value: u64,
    out: &mut [u8],
) -> u32
    ensures { (result ≡ gives_back (written_of (Ask request (number_with international count value)) out.old))
        × (out.new ≡ left_of (Ask request (number_with international count value)) out.old) }
{
    let called = number_with(international, count, value);
    gives_back(write_ask(request, called, out))
}

pub fn rev_write_message(
    message: u8,
    cause: u8,
    component: u8,
    item: u8,
    parts: u8,
    callinginternational: bool,
    callingcount: u8,
    callingvalue: u64,
    calledinternational: bool,
    calledcount: u8,
    calledvalue: u64,
    duration: u32,
    out: &mut [u8],
) -> u32
    ensures { (result ≡ gives_back (written_of
        (message_with message cause component item parts
        (number_with callinginternational callingcount callingvalue)
        (number_with calledinternational calledcount calledvalue) duration)
        out.old))
        × (out.new ≡ left_of
        (message_with message cause component item parts
        (number_with callinginternational callingcount callingvalue)
        (number_with calledinternational calledcount calledvalue) duration)
        out.old) }
{
    let m = Message {
        kind: message,
        cause,
        component: component_of(component, item),
        parts,
        calling: number_with(callinginternational, callingcount, callingvalue),
        called: number_with(calledinternational, calledcount, calledvalue),
        duration,
    };
    gives_back(write_message(m, out))
}

pub fn rev_write_access(told: u8, error: u8, out: &mut [u8]) -> u32
    ensures { (result ≡ gives_back (written_of (FromAccess told error) out.old))
        × (out.new ≡ left_of (FromAccess told error) out.old) }
{
    gives_back(write_access(told, error, out))
}

pub fn rev_write_expiry(out: &mut [u8]) -> u32
    ensures { (result ≡ gives_back (written_of Expiry out.old)) × (out.new ≡ left_of Expiry out.old) }
{
    gives_back(write_expiry(out))
}

pub fn rev_write_time(seconds: u32, out: &mut [u8]) -> u32
    ensures { (result ≡ gives_back (written_of (Time seconds) out.old))
        × (out.new ≡ left_of (Time seconds) out.old) }
{
    gives_back(write_time(seconds, out))
}

// A record of kind 7 around the plain record that a host in C hands over: 5, 6 or 7 if none can be read there, then 3 and 8 as of any event.
pub fn rev_write_slot(slot: u16, inner: &[u8], out: &mut [u8]) -> u32
    ensures { (result ≡ slot_gives (plain_at inner.now 0) slot out.old)
        × (out.new ≡ slot_leaves (plain_at inner.now 0) slot out.old) }
{
    match plain_at(inner, 0) {
        None => u32::from(Unreadable::CutShort.number()),
        Some(Err(stop)) => u32::from(stop.number()),
        Some(Ok(record)) => gives_back(write_at_slot(slot, record.event, out)),
    }
}

// Whether two telephone numbers are the same.
pub fn rev_same_number(
    international: bool,
    count: u8,
    value: u64,
    otherinternational: bool,
    othercount: u8,
    othervalue: u64,
) -> bool
    ensures { result ≡ same_number (number_with international count value) (number_with otherinternational othercount othervalue) }
{
    let a = number_with(international, count, value);
    let b = number_with(otherinternational, othercount, othervalue);
    rows::same_number(a, b)
}
