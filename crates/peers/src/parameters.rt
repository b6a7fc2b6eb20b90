// For a host in C: a parameter as entries of events, and an entry as a parameter. Number + 256 * rest is given back; where the number is
// not 0 nothing was written.
ghost use Rattle.std.specs.Prelude.{◌≡◌, ◌+◌, ◌≤◌, MatchOption};
ghost use Rattle.text.specs.Choose.{if_lt};
ghost use Rattle.rows.specs.declared.Event.TheVariants.{Received};
ghost use Rattle.wire.specs.Parameters.{parameter_of};
ghost use Rattle.wire.specs.Texts.{parameter_text, leaves_of};
ghost use Rattle.wire.specs.Writable.{bad_of};
ghost use Rattle.peers.specs.Entries.{given, KeptWithin, gives_of, read_gives, read_leaves, identifier_at, record_at};
ghost use Rattle.peers.specs.Entries.{in_record, send_gives, send_leaves, write_gives, write_leaves};

use crate::Refusal;
use crate::entries::{keep_all, write_none};
use crate::messages::carried;
use crate::refusals::{given, in_record};
use files::Unreadable;
use rows::{Event, Message};
use wire::Component;

// ---- from a parameter to entries

// Kept: message and cause are passed one by one, here and below: they are the two numbers that a host in C passes (rev_read_parameter).
fn read(parameter: &[u8], message: u8, cause: u8, out: &mut [u8]) -> Result<usize, Refusal>
    ensures { (given result ≡ read_gives message cause (parameter_of parameter.now) out.old)
        × (out.new ≡ read_leaves message cause (parameter_of parameter.now) out.old)
        × KeptWithin result }
{
    wire::framed(parameter)?;
    if parameter.len() == 3 {
        write_none(message, cause, out)
    } else {
        keep_all(parameter, message, cause, out)
    }
}

// The events of a parameter, in a message of this kind and cause: an entry for each component; one with component 0 where it has none.
pub fn rev_read_parameter(parameter: &[u8], message: u8, cause: u8, out: &mut [u8]) -> u32
    ensures { (result ≡ read_gives message cause (parameter_of parameter.now) out.old)
        × (out.new ≡ read_leaves message cause (parameter_of parameter.now) out.old) }
{
    given(read(parameter, message, cause, out))
}

// ---- from an entry to a parameter

fn identifier(entry: &[u8]) -> u16
    ensures { result ≡ identifier_at entry.now }
{
    files::le2(entry, 0) as u16
}

// The first field out of range of a record and of its component, where the record has one.
#[tactic(auto, unfolding(text::specs::Choose::if_so, text::specs::Choose::if_lt))]
fn nearest(field: u8, of_component: Option<u8>) -> u16
    ensures first { MatchOption of_component (result ≡ field) (λ k. result ≡ if_lt (2 + k) field (2 + k) field) }
    ensures upper_bound { result ≤ 255 }
{
    let field = u16::from(field);
    of_component.map_or(field, |k| field.min(in_record(k)))
}

fn write_component(c: Component, out: &mut [u8]) -> Result<usize, Refusal>
    ensures { (given result ≡ gives_of (in_record (bad_of c)) (parameter_text c) out.old)
        × (out.new ≡ leaves_of (in_record (bad_of c)) (parameter_text c) out.old)
        × KeptWithin result }
{
    Ok(wire::write_parameter(c, out)?)
}

// A record in range is left to the writer of components. Else the first of both is told, and nothing is written.
fn write_message(m: Message, id: u16, out: &mut [u8]) -> Result<usize, Refusal>
    ensures { (given result ≡ send_gives (Received m) id out.old)
        × (out.new ≡ send_leaves (Received m) id out.old)
        × KeptWithin result }
{
    let c = carried(m, id);
    match rows::message_bad(m) {
        None => write_component(c, out),
        Some(field) => Err(Refusal::BadField(nearest(field, wire::bad_field(c)))),
    }
}

fn write_event(e: Event, id: u16, out: &mut [u8]) -> Result<usize, Refusal>
    ensures { (given result ≡ send_gives e id out.old) × (out.new ≡ send_leaves e id out.old) × KeptWithin result }
{
    match e {
        Event::Received(m) => write_message(m, id, out),
        _ => Err(Refusal::OtherKind),
    }
}

#[tactic(auto, unfolding(crate::specs::Entries::write_gives, crate::specs::Entries::write_leaves))]
fn write(entry: &[u8], out: &mut [u8]) -> Result<usize, Refusal>
    ensures { (given result ≡ write_gives (record_at entry.now) (identifier_at entry.now) out.old)
        × (out.new ≡ write_leaves (record_at entry.now) (identifier_at entry.now) out.old)
        × KeptWithin result }
{
    match files::plain_at(entry, 2) {
        None => Err(Refusal::BadRecord(Unreadable::CutShort)),
        Some(Err(stop)) => Err(Refusal::BadRecord(stop)),
        Some(Ok(record)) => write_event(record.event, identifier(entry), out),
    }
}

// The parameter of an entry, which is an identifier and a record of kind 3. What follows the record is not looked at.
pub fn rev_write_parameter(entry: &[u8], out: &mut [u8]) -> u32
    ensures { (result ≡ write_gives (record_at entry.now) (identifier_at entry.now) out.old)
        × (out.new ≡ write_leaves (record_at entry.now) (identifier_at entry.now) out.old) }
{
    given(write(entry, out))
}
