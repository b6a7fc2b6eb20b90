// The lines of a text, each recorded after the one before.
ghost use Rattle.std.specs.Prelude.{◌≤◌, length, IfOk};

use crate::guess::{event_of, numeric};
use crate::refused::{Refused, Stop};
use files::{Unwritten, Where};
use rows::Event;

// The line that a dump begins with.
fn is_count(line: &[u8]) -> bool {
    line.strip_prefix(b"RECORDS ").is_some_and(numeric)
}

// No bytes but blanks and tabs.
fn is_blank(line: &[u8]) -> bool {
    line.iter().all(|b| matches!(*b, b' ' | b'\t'))
}

fn is_skipped(line: &[u8], count: usize) -> bool {
    (count == 1 && is_count(line)) || is_blank(line) || line.starts_with(b"#")
}

// The words of an event: a line of a dump has an ordinal and a place before them.
fn event_words(line: &[u8]) -> &[u8] {
    let mut words = line.splitn(3, |b| *b == b' ');
    match (words.next(), words.next(), words.next()) {
        (Some(ordinal), Some(place), Some(rest)) if numeric(ordinal) && numeric(place) => rest,
        _ => line,
    }
}

// A plain record, or one of kind 7.
fn write(w: Where, e: Event, out: &mut [u8]) -> Result<usize, Unwritten>
    ensures { IfOk result (λ n. n ≤ length out.old) }
{
    match w {
        Where::Plain => files::write_event(e, out),
        Where::Slot(slot) => files::write_at_slot(slot, e, out),
    }
}

// A line that is not skipped, recorded at `to`: the place after it.
fn take(line: &[u8], out: &mut [u8], to: usize) -> Result<usize, Refused>
    requires { to ≤ length out.old }
    ensures { IfOk result (λ n. n ≤ length out.old) }
{
    // as the lines of some other systems do
    if line.ends_with(b"\r") {
        return Err(Refused::EndsInReturn);
    }
    let (w, e) = event_of(event_words(line)).ok_or(Refused::Unknown)?;
    Ok(to + write(w, e, &mut out[to..])?)
}

// All lines, or those up to the first that is refused: how many bytes are recorded. (After the last line's end stands one more line, which
// is blank.)
pub(crate) fn record(text: &[u8], out: &mut [u8]) -> Result<usize, Stop>
    ensures { IfOk result (λ n. n ≤ length out.old) }
{
    let mut to = 0;
    for (i, bytes) in text.split(|b| *b == b'\n').enumerate() {
        let line = i + 1;
        if !is_skipped(bytes, line) {
            to = take(bytes, out, to).map_err(|why| Stop { line, why })?;
        }
    }
    Ok(to)
}
