// Writes a dump of the event file on standard input, or `REFUSED 8`.
#![tactic(auto)]

use std::io;

// One byte more than a file may have, so that a longer input is noticed.
const FILE: usize = 65537;

// Room for the dump of every file. A message of 9 bytes has the most text for its bytes: 93, with an ordinal of five digits; a slot is 6
// bytes more and at most 11 of text. So the lines of 65,536 bytes have at most 65,536 / 9 * 93 = 677,206; the first line, and one of a
// record that cannot be read, have 14 and 25.
const ROOM: usize = 1048576;

// What rev_dump answers for a longer file.
// Kept: it gives a host in C this number too (rev.h).
const TOO_LONG: usize = 8;

// Kept: as listing's main but for function and room: one for both would be lent the function as a closure, with both rooms, and be longer.
fn main(rt: HostRuntime) -> io::Result<()> {
    let mut file = input::room::<FILE>();
    let n = input::fill(&rt, &mut file)?;
    let mut out = input::room::<ROOM>();
    match files::rev_dump(&file[..n], &mut out) {
        TOO_LONG => rt.write_all(b"REFUSED 8\n"),
        k => rt.write_all(&out[..k]),
    }
}
