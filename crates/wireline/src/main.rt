// Reads a parameter of remote operations on standard input, or with -c the component that the input begins with, and writes a line for each
// component, or the refusal; with -w ROOM it reads such a line, and writes the component into a room of so many bytes. -x: bytes are
// hexadecimal text. An input that is no such text, or no such line, has a message on standard error, and nothing is written.
#![tactic(auto)]

ghost use Rattle.std.specs.Prelude.{◌+◌, ◌^◌, ◌<◌, IfSome};

mod answers;
mod guess;
mod hex;
mod lines;

use std::env::FillError;
use std::io;
use std::rt::Env;
use text::Page;

// The bytes of a component, and of a text that says them: two digits, a blank and more for each.
const LONGEST: usize = 65536;

const LONGEST_TEXT: usize = 262144;

// Room for the longest text, and a byte more, so that a longer one is noticed.
const TEXT: usize = 262145;

// The largest room that -w may have.
const COMPONENT: usize = 65535;

// Room for every answer: a parameter has at most 36 components, and a line at most 354 bytes.
const ANSWER: usize = 16384;

// Whether an argument is the word; nothing, where there is no such argument. One that is too long for the buffer is no option.
fn argument_is(rt: &impl Env, i: usize, name: &[u8]) -> Option<bool> {
    let mut word = [0u8; 8];
    match rt.arg(i, &mut word) {
        Ok(n) => Some(&word[..n] == name),
        Err(FillError::TooLong) => Some(false),
        Err(FillError::NotPresent) => None,
    }
}

// The place of an option among the arguments.
fn option(rt: &impl Env, name: &[u8]) -> Option<usize>
    ensures { IfSome result (λ i. i + 1 < 2 ^ 64) }
{
    for i in 1..usize::MAX {
        if argument_is(rt, i, name)? {
            return Some(i);
        }
    }
    None
}

// An argument that is a number.
fn argument(rt: &impl Env, i: usize) -> u64 {
    let mut word = [0u8; 8];
    let n = rt.arg(i, &mut word).unwrap_or(0);
    pieces::value(&word[..n])
}

fn too_long(rt: &impl Print) -> io::Result<()> {
    rt.write_all(b"REFUSED 8\n")
}

// What a page says. One that its room did not hold would be too long, but none is.
// Kept: `get(..n)` here, in answer_octets and in tell_front: each has its own next step, and one for all would be lent it as a closure.
fn tell(rt: &impl Print, page: &Page<'_>) -> io::Result<()> {
    match page.out.get(..page.at) {
        Some(answer) => rt.write_all(answer),
        None => too_long(rt),
    }
}

fn tell_component(rt: &impl Print, s: &[u8]) -> io::Result<()> {
    let mut out = input::room::<ANSWER>();
    let mut page = Page::new(&mut out);
    answers::put_component(&mut page, s);
    tell(rt, &page)
}

fn tell_parameter(rt: &impl Print, s: &[u8]) -> io::Result<()> {
    let mut out = input::room::<ANSWER>();
    let mut page = Page::new(&mut out);
    answers::put_parameter(&mut page, s);
    tell(rt, &page)
}

fn answer(rt: &(impl Env + Print), s: &[u8]) -> io::Result<()> {
    if LONGEST < s.len() {
        too_long(rt)
    } else if option(rt, b"-c").is_some() {
        tell_component(rt, s)
    } else {
        tell_parameter(rt, s)
    }
}

// So many octets of a text are in the buffer, as far as it goes.
fn answer_octets(rt: &(impl Env + Print), bytes: &[u8], n: usize) -> io::Result<()> {
    match bytes.get(..n) {
        Some(octets) => answer(rt, octets),
        None => too_long(rt),
    }
}

fn answer_hex(rt: &(impl Env + Print + Eprint), text: &[u8]) -> io::Result<()> {
    if LONGEST_TEXT < text.len() {
        return too_long(rt);
    }
    let mut bytes = input::room::<LONGEST>();
    match hex::octets(text, &mut bytes) {
        Some(n) => answer_octets(rt, &bytes, n),
        None => eprintln!(rt;
            "wire: not hexadecimal: not two digits an octet, with blanks and line ends"
        ),
    }
}

fn read(rt: &(impl Env + Input + Print + Eprint)) -> io::Result<()> {
    let mut text = input::room::<TEXT>();
    let n = input::fill(rt, &mut text)?;
    if option(rt, b"-x").is_some() {
        answer_hex(rt, &text[..n])
    } else {
        answer(rt, &text[..n])
    }
}

// A component's bytes.
fn tell_bytes(rt: &(impl Env + Print), s: &[u8]) -> io::Result<()> {
    if option(rt, b"-x").is_none() {
        return rt.write_all(s);
    }
    let mut out = input::room::<ANSWER>();
    let mut page = Page::new(&mut out);
    hex::put_hex(&mut page, s);
    tell(rt, &page)
}

// So many bytes of a room. More than it has would be too many, but never are.
fn tell_front(rt: &(impl Env + Print), out: &[u8], n: usize) -> io::Result<()> {
    match out.get(..n) {
        Some(front) => tell_bytes(rt, front),
        None => too_long(rt),
    }
}

// The component that a line says, written into a room.
fn write_in(rt: &(impl Env + Print + Eprint), line: &[u8], out: &mut [u8]) -> io::Result<()> {
    match guess::write(line, out) {
        None => eprintln!(rt; "wire: not understood: no component has this line"),
        Some(Ok(n)) => tell_front(rt, out, n),
        Some(Err(why)) => println!(rt; "REFUSED {}", why.number()),
    }
}

// A line, written into a room of so many bytes of a buffer.
fn write_room(
    rt: &(impl Env + Print + Eprint),
    line: &[u8],
    out: &mut [u8],
    to: usize,
) -> io::Result<()> {
    match out.get_mut(..to) {
        Some(room) => write_in(rt, line, room),
        None => eprintln!(rt; "wire: a room has at most 65,535 bytes"),
    }
}

fn write(rt: &(impl Env + Input + Print + Eprint), room: u64) -> io::Result<()> {
    let mut text = input::room::<ANSWER>();
    let n = input::fill(rt, &mut text)?;
    let text = &text[..n];
    // without the end of its last line
    let line = text.strip_suffix(b"\n").unwrap_or(text);
    let mut out = input::room::<COMPONENT>();
    write_room(rt, line, &mut out, room as usize)
}

fn main(rt: HostRuntime) -> io::Result<()> {
    match option(&rt, b"-w") {
        None => read(&rt),
        Some(i) => write(&rt, argument(&rt, i + 1)),
    }
}
