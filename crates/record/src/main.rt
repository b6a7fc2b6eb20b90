// Writes the event file that the text on standard input says, in the words of the dump, a line an event. A text that is refused has a
// message on standard error, and nothing is written.
#![tactic(auto)]

mod guess;
mod lines;
mod refused;

use crate::refused::Stop;
use std::io;

// Room for the dump of every file, which has fewer than 680,000 bytes, and for remarks; one byte more, so that a longer text is noticed.
const TEXT: usize = 1048577;

// Room for an event file.
const FILE: usize = 65536;

fn main(rt: HostRuntime) -> io::Result<()> {
    let mut text = input::room::<TEXT>();
    let n = input::fill(&rt, &mut text)?;
    if n == text.len() {
        return eprintln!(rt; "record: REFUSED 8: the text has more than 1,048,576 bytes");
    }
    let mut out = input::room::<FILE>();
    match lines::record(&text[..n], &mut out) {
        Ok(to) => rt.write_all(&out[..to]),
        Err(Stop { line, why }) => eprintln!(rt; "record: line {line}: {why}"),
    }
}
