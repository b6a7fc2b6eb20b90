// What component a line says. The guess goes by the words that tell fields apart and looks at nothing else; the line is understood if the
// component's line, with its numbers in the forms in which they stand there, is that line. So a wrong guess makes a line not understood,
// and a component that is written is the one that its line says.
ghost use Rattle.std.specs.Prelude.{◌≡◌, ◌<◌, true};
ghost use Rattle.wireline.specs.Guess.{Right, Wrote};
ghost use Rattle.wireline.specs.Lines.{line_in};

use crate::hex::{HexByte, meaning};
use crate::lines::put_line_in;
use pieces::{after, has, value, word};
use text::Page;
use wire::{Component, Number, Unwritten};

// No part's word stands before the fourth; the operation CALLED does.
const PARTS: usize = 3;

// As a number of 8 bits, or 0.
fn code(w: &[u8]) -> u8 {
    u8::try_from(value(w)).unwrap_or(0)
}

// An operation or an error.
// Kept: record's operation() has these words too; shared, they would need a definition that has them once more, and be longer.
fn item(w: &[u8]) -> u8 {
    match w {
        b"SETUP" => 1,
        b"ACTIVE" => 2,
        b"CALLED" => 3,
        _ => code(w),
    }
}

// Two hexadecimal digits, or none.
fn id(w: &[u8]) -> u16 {
    let [high, low] = *w else {
        return 256;
    };
    match (meaning(high), meaning(low)) {
        (HexByte::Digit(high), HexByte::Digit(low)) => u16::from(high * 16 + low),
        _ => 256,
    }
}

// A part's weight, where its name is there.
fn part(line: &[u8], name: &[u8], weight: u8) -> u8 {
    if has(line, PARTS, name) { weight } else { 0 }
}

fn parts(line: &[u8]) -> u8 {
    part(line, b"TRANSFER", 1)
        | part(line, b"ACCEPTED", 2)
        | part(line, b"AS-TRANSFER", 4)
        | part(line, b"PARTIAL", 8)
        | part(line, b"CALLING", 16)
        | part(line, b"CALLED", 32)
        | part(line, b"DURATION", 64)
}

// A number by its digits, or by its count and value.
fn digits(w: &[u8]) -> Number
    ensures { result.count < 128 }
{
    match w.iter().position(|b| *b == b':') {
        Some(i) => Number {
            count: code(&w[..i]) % 128,
            value: value(&w[i + 1..]),
        },
        None => Number {
            count: u8::try_from(w.len()).unwrap_or(0) % 128,
            value: value(w),
        },
    }
}

fn number(w: &[u8]) -> Number {
    match w {
        [b'+', national @ ..] => {
            let Number { count, value } = digits(national);
            Number {
                count: 128 + count,
                value,
            }
        }
        _ => digits(w),
    }
}

// A form's weight, where a number is said by its count and value, as one without digits has to be.
fn form(w: &[u8], weight: u8) -> u8 {
    if w.contains(&b':') || matches!(w, b"" | b"+") {
        weight
    } else {
        0
    }
}

fn forms(line: &[u8]) -> u8 {
    form(after(line, PARTS, b"CALLING"), 1) | form(after(line, PARTS, b"CALLED"), 2)
}

fn component(line: &[u8], kind: u8, item: u8, id: u16) -> Component {
    Component {
        kind,
        item,
        parts: parts(line),
        calling: number(after(line, PARTS, b"CALLING")),
        called: number(after(line, PARTS, b"CALLED")),
        duration: u32::try_from(value(after(line, PARTS, b"DURATION"))).unwrap_or(0),
        id,
    }
}

// A reject has no word for an item.
fn guess(line: &[u8]) -> Component {
    let kind = match word(line, 0) {
        b"INVOKE" => 1,
        b"RESULT" => 2,
        b"ERROR" => 3,
        _ => return component(line, 4, 0, id(word(line, 2))),
    };
    component(line, kind, item(word(line, 1)), id(word(line, 3)))
}

// Whether a line is that of a component, with its numbers in these forms.
fn says(line: &[u8], forms: u8, c: Component) -> bool
    ensures { result ≡ true → line.now ≡ line_in forms c }
{
    let mut words = [0u8; 354];
    let mut page = Page::new(&mut words);
    put_line_in(&mut page, forms, c);
    let n = page.at;
    line == &words[..n]
}

// The component that a line says, and the forms of its numbers.
fn component_of(line: &[u8]) -> Option<(u8, Component)>
    ensures { Right line.now result }
{
    // no component's line is longer, and one that is need not be gone through
    if 354 < line.len() {
        return None;
    }
    let c = guess(line);
    let f = forms(line);
    says(line, f, c).then_some((f, c))
}

// Writes the component that a line says.
pub(crate) fn write(line: &[u8], out: &mut [u8]) -> Option<Result<usize, Unwritten>>
    ensures { Wrote line.now out.old out.new result }
{
    let (_, c) = component_of(line)?;
    Some(wire::write_component(c, out))
}
