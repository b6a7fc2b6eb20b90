// Writes the listing of the event file on standard input, or `REFUSED 8`.
#![tactic(auto)]

use std::io;

// One byte more than a file may have, so that a longer input is noticed.
const FILE: usize = 65537;

// Room for a listing.
const ROOM: usize = 65536;

// What rev_listing answers for a longer file, or a longer listing.
// Kept: it gives a host in C this number too (rev.h).
const TOO_LONG: usize = 8;

fn main(rt: HostRuntime) -> io::Result<()> {
    let mut file = input::room::<FILE>();
    let n = input::fill(&rt, &mut file)?;
    let mut out = input::room::<ROOM>();
    match files::rev_listing(&file[..n], &mut out) {
        TOO_LONG => rt.write_all(b"REFUSED 8\n"),
        k => rt.write_all(&out[..k]),
    }
}
