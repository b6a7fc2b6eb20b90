// What event the words of a line say, and at which slot. The guess goes by the words that tell fields apart and looks at nothing else; the
// line is known if the words of slot and event, as the dump has them, are the line. So a wrong guess makes a line unknown: what is known of
// a line has its words.
ghost use Rattle.std.specs.Prelude.{◌≤◌};
ghost use Rattle.record.specs.Guess.{Right};

use files::Where;
use pieces::{after, has, value, word};
use rows::{ABSENT, Component, Event, Message, Nature, Number};

// At least one byte, and each a digit.
pub(crate) fn numeric(w: &[u8]) -> bool {
    !w.is_empty() && w.iter().all(|b| b.is_ascii_digit())
}

// Kept: code and part, here and in wireline: in pieces, where each has a definition and an edit, they would be longer than twice here.

// As a number of 8 bits, or 0.
fn code(w: &[u8]) -> u8 {
    u8::try_from(value(w)).unwrap_or(0)
}

// As a number of 32 bits, or 0.
fn seconds(w: &[u8]) -> u32 {
    u32::try_from(value(w)).unwrap_or(0)
}

// Kept: beside wireline's digits(), whose Number is another type, and says its nature in its count.
// The digits of a number, or its count and value. A record has seven bits for a count: a greater one makes a line unknown.
fn digits(nature: Nature, w: &[u8]) -> Number {
    match w.iter().position(|b| *b == b':') {
        Some(i) => Number {
            nature,
            count: code(&w[..i]) % 128,
            value: value(&w[i + 1..]),
        },
        None => Number {
            nature,
            count: u8::try_from(w.len()).unwrap_or(0),
            value: value(w),
        },
    }
}

fn number(w: &[u8]) -> Number {
    match w {
        b"-" => ABSENT,
        [b'+', national @ ..] => digits(Nature::International, national),
        _ => digits(Nature::National, w),
    }
}

fn role(w: &[u8]) -> u8 {
    match w {
        b"originating" => 0,
        b"destination" => 1,
        _ => code(w),
    }
}

fn flag(w: &[u8]) -> u8 {
    match w {
        b"transfer" => 1,
        b"option" => 2,
        b"subscribed" => 4,
        b"interaction" => 8,
        b"case-d" => 16,
        _ => 0,
    }
}

fn flags(w: &[u8]) -> u8 {
    if numeric(w) {
        return code(w);
    }
    w.split(|b| *b == b',').fold(0, |all, w| all | flag(w))
}

fn opening(line: &[u8]) -> Event {
    Event::Opening(
        role(word(line, 1)),
        flags(word(line, 2)),
        number(word(line, 3)),
    )
}

fn request(w: &[u8]) -> u8 {
    match w {
        b"BASIC" => 0,
        b"A" => 1,
        b"B" => 2,
        b"C" => 3,
        _ => code(w),
    }
}

fn ask(line: &[u8]) -> Event {
    Event::Ask(request(word(line, 1)), number(word(line, 2)))
}

fn told(w: &[u8]) -> u8 {
    match w {
        b"ACCEPT" => 1,
        b"ERROR" => 2,
        b"REJECT" => 3,
        b"CLEAR" => 4,
        b"ANSWER" => 5,
        _ => code(w),
    }
}

fn access(line: &[u8]) -> Event {
    Event::FromAccess(told(word(line, 1)), code(word(line, 2)))
}

fn kind(line: &[u8]) -> u8 {
    match word(line, 0) {
        b"IAM" => 1,
        b"ANM" => 2,
        b"CON" => 3,
        b"REL" => 4,
        b"FAC" => 5,
        _ => code(word(line, 1)),
    }
}

fn operation(w: &[u8]) -> u8 {
    match w {
        b"SETUP" => 1,
        b"ACTIVE" => 2,
        b"CALLED" => 3,
        _ => code(w),
    }
}

// The component: its first word, and the two words after that. Components 0 to 4 have words of their own.
fn component(w: &[u8], next: &[u8], last: &[u8]) -> Component {
    match w {
        b"NONE" => Component::Absent(code(next)),
        b"INVOKE" => Component::Invoke(operation(next)),
        b"RESULT" => Component::Result(operation(next)),
        b"ERROR" => Component::Error(code(next)),
        // the number after REJECT, where one is there
        b"REJECT" if numeric(next) => Component::Reject(code(next)),
        b"REJECT" => Component::Reject(0),
        b"COMPONENT" => match code(next) {
            0..=4 => Component::Absent(code(last)),
            number => Component::Unknown(number, code(last)),
        },
        _ => Component::Absent(0),
    }
}

// A part's weight, where its name is there.
fn part(line: &[u8], from: usize, name: &[u8], weight: u8) -> u8 {
    if has(line, from, name) { weight } else { 0 }
}

fn parts(line: &[u8], from: usize) -> u8 {
    part(line, from, b"TRANSFER", 1)
        | part(line, from, b"ACCEPTED", 2)
        | part(line, from, b"AS-TRANSFER", 4)
        | part(line, from, b"PARTIAL", 8)
        | part(line, from, b"CALLING", 16)
        | part(line, from, b"CALLED", 32)
        | part(line, from, b"DURATION", 64)
        | part(line, from, b"PART", 128)
}

// A message, which has its cause at the word k, then its component and its parts.
fn message_at(line: &[u8], k: usize) -> Event
    requires { k ≤ 2 }
{
    let held = word(line, k + 1);
    // an operation may be CALLED as a part may
    let from = match held {
        b"INVOKE" | b"RESULT" => k + 3,
        _ => k + 1,
    };
    Event::Received(Message {
        kind: kind(line),
        cause: code(word(line, k)),
        component: component(held, word(line, k + 2), word(line, k + 3)),
        parts: parts(line, from),
        calling: number(after(line, from, b"CALLING")),
        called: number(after(line, from, b"CALLED")),
        duration: seconds(after(line, from, b"DURATION")),
    })
}

fn guess(line: &[u8]) -> Event {
    match word(line, 0) {
        b"OPENING" => opening(line),
        b"REQUEST" => ask(line),
        b"ACCESS" => access(line),
        b"EXPIRY" => Event::Expiry,
        b"TIME" => Event::Time(seconds(word(line, 1))),
        // a message that has no name is two words
        b"MESSAGE" => message_at(line, 2),
        _ => message_at(line, 1),
    }
}

// Known, if the line says it.
fn checked(line: &[u8], w: Where, e: Event) -> Option<(Where, Event)>
    ensures { Right line.now result }
{
    files::says(line, w, e).then_some((w, e))
}

// Where the first word is SLOT, the second is its number, and the words of the event come after them.
pub(crate) fn event_of(line: &[u8]) -> Option<(Where, Event)>
    ensures { Right line.now result }
{
    // the words of a slot and an event have fewer bytes, and a longer line need not be gone through
    if 674 <= line.len() {
        return None;
    }
    let mut words = line.splitn(3, |b| *b == b' ');
    match (words.next(), words.next(), words.next()) {
        (Some(b"SLOT"), Some(w), Some(rest)) => {
            let slot = u16::try_from(value(w)).unwrap_or(0);
            checked(line, Where::Slot(slot), guess(rest))
        }
        _ => checked(line, Where::Plain, guess(line)),
    }
}
