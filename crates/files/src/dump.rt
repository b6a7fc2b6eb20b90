// A dump of a file, for a volunteer who wants to see what the board wrote: each record's ordinal, its place, and what it says.
ghost use Rattle.std.specs.Prelude.{◌≡◌, ◌+◌, ◌≤◌, length, Some};
ghost use Rattle.text.specs.Page.{Wrote};
ghost use Rattle.files.specs.Dump.{stop_text, found_text, place_text, longest_place, dump_of};
ghost use Rattle.files.specs.Fit.{longest, answers, leaves};

use crate::bodies::read_by;
use crate::fit::{LONGEST, TOO_LONG};
use crate::lines::put_numbered_line;
use crate::places::{Records, count_records};
use crate::words::put_entry;
use crate::{Record, Unreadable};
use text::Page;

fn put_stop(page: &mut Page<'_>, stop: Unreadable)
    ensures { Wrote (stop_text stop) page.old page.new }
{
    match stop {
        Unreadable::CutShort => page.word(b" CUT-SHORT"),
        Unreadable::BadLength => page.word(b" BAD-LENGTH"),
        Unreadable::UnknownKind => page.word(b" UNKNOWN-KIND"),
    }
}

// What a record says, or why it cannot be read.
fn put_found(page: &mut Page<'_>, found: Result<Record, Unreadable>)
    ensures { Wrote (found_text (Some found)) page.old page.new }
{
    match found {
        Err(stop) => put_stop(page, stop),
        Ok(record) => put_entry(page, record.acts, record.event),
    }
}

// A record's line.
fn put_place(page: &mut Page<'_>, ordinal: u32, found: Result<Record, Unreadable>, at: u32)
    ensures put { Wrote (place_text ordinal (Some found) at) page.old page.new }
    ensures upper_bound { page.new.at ≤ page.old.at + longest_place }
{
    page.decimal(ordinal);
    page.numbered(b" ", at);
    put_found(page, found);
    page.put(b'\n');
}

// The whole dump.
// Kept: `longest` is a clause, here and in listing.rt: it bounds counts and places, and a type for it would be built for three calls alone.
fn write(page: &mut Page<'_>, file: &[u8])
    requires { length file.now ≤ longest }
    ensures { Wrote (dump_of file.now) page.old page.new }
{
    put_numbered_line(page, b"RECORDS ", count_records(file) as u32);
    let mut count = 0;
    for (at, f) in Records::of(file) {
        count += 1;
        put_place(page, count, read_by(file, at, f), at as u32);
    }
}

// The dump of a file in a buffer of any size: its length; or 8, and the buffer as it was.
pub fn rev_dump(file: &[u8], out: &mut [u8]) -> usize
    ensures { (result ≡ answers file.now (dump_of file.now) out.old)
        × (out.new ≡ leaves file.now (dump_of file.now) out.old) }
{
    if LONGEST < file.len() {
        return TOO_LONG;
    }
    // measured first: nothing is stored in a buffer of no bytes
    let mut nothing = Page::new(&mut out[..0]);
    write(&mut nothing, file);
    let n = nothing.at;
    if out.len() < n {
        return TOO_LONG;
    }
    let mut page = Page::new(out);
    write(&mut page, file);
    page.at
}
