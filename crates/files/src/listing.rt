// The listing of a file: every record's line and actions, from a row of calls, of which each event steps one on.
ghost use Rattle.std.specs.Prelude.{◌≡◌, ◌^◌, ◌<◌, ◌≤◌, length};
ghost use Rattle.text.specs.Page.{Wrote, moved};
ghost use Rattle.std.specs.Prelude.{Some};
ghost use Rattle.files.specs.Bodies.{read_by};
ghost use Rattle.files.specs.Fit.{longest, answers, leaves};
ghost use Rattle.files.specs.Listing.{slot_of, slot_framed, is_slot, names_framed, answer_of, index_of, names_slots};
ghost use Rattle.files.specs.Listing.{listing_by, listing_of};

use crate::bodies::event_at;
use crate::fit::{LONGEST, TOO_LONG};
use crate::lines::{put_numbered_line, put_record};
use crate::places::Records;
use crate::{Frame, Unreadable, Where};
use board::{NO_SUCH_SLOT, SLOTS};
use rows::{Call, Outcome};
use text::Page;

// A listing that was measured: its length, and whether it shows slots.
#[derive(Clone, Copy)]
struct Listed {
    to: usize,
    slots: bool,
}

impl Where {
    // The slot at which a record acts.
    fn slot(self) -> u16
        ensures { result ≡ slot_of self }
    {
        match self {
            Where::Plain => 0,
            Where::Slot(slot) => slot,
        }
    }

    // Whether it is a record of kind 7.
    fn is_slot(self) -> bool
        ensures { result ≡ is_slot self }
    {
        matches!(self, Where::Slot(_))
    }
}

// Where a record acts by its frame: of one that cannot be read it is slot 0 that shows, as of a plain one.
fn acts_framed(f: Result<Frame, Unreadable>) -> Where
    ensures { (slot_of result ≡ slot_framed f) × (is_slot result ≡ names_framed f) }
{
    f.map_or(Where::Plain, |frame| frame.acts)
}

// The place of a slot in the row of a listing: past the last slot stands a call that is never opened.
#[tactic(auto, using(text::proofs::Cases::cases), unfolding(crate::specs::Listing::index_of))]
fn index_of(slot: u16) -> usize
    ensures { (result ≡ index_of slot) × (result < 65) }
{
    SLOTS.min(slot.into())
}

// The answer of a slot's call to the record at a place, by its frame: one that cannot be read is refused with its number. The event is read
// here, where it is answered, so that it is not handed on.
fn answer(file: &[u8], at: usize, f: Result<Frame, Unreadable>, there: bool, call: Call) -> Outcome
    requires { at < 2 ^ 63 }
    ensures { result ≡ answer_of (Some (read_by file.now at f)) there call }
{
    match f {
        Err(stop) => call.refused(stop.number()),
        Ok(frame) if there => call.step(event_at(file, frame.acts.body_at(at), frame.kind)),
        // the call past the last slot, which is never opened
        Ok(_) => call.refused(NO_SUCH_SLOT),
    }
}

// The whole listing, with slots or without: whether a record names a slot.
fn write(page: &mut Page<'_>, file: &[u8], slots: bool) -> bool
    requires { length file.now ≤ longest }
    ensures put { Wrote (listing_by slots file.now) page.old page.new }
    ensures value { result ≡ names_slots file.now }
{
    page.word(b"REV 1\n");
    let mut count = 0;
    let mut named = false;
    let mut call = Call::unopened();
    let mut row = [call; 65];
    // the place of the row whose call is in `call`, and may be newer there
    let mut held = 0;
    for (at, f) in Records::of(file) {
        let acts = acts_framed(f);
        let slot = acts.slot();
        let index = index_of(slot);
        if index != held {
            row[held] = call;
            call = row[index];
            held = index;
        }
        let o = answer(file, at, f, index < SLOTS, call);
        count += 1;
        named |= acts.is_slot();
        put_record(page, count, slots, u32::from(slot), o);
        call = o.call;
    }
    put_numbered_line(page, b"END ", count);
    named
}

// How long it is, and whether it shows slots.
fn measure(file: &[u8], nothing: &mut [u8]) -> Listed
    requires file_len_bound { length file.now ≤ longest }
    requires nothing_len { length nothing.old ≡ 0 }
    ensures { (result.to ≡ moved 0 (length (listing_of file.now))) × (result.slots ≡ names_slots file.now) }
{
    let mut page = Page::new(nothing);
    let slots = write(&mut page, file, false);
    if slots {
        page.at = 0;
        write(&mut page, file, true);
    }
    Listed { to: page.at, slots }
}

// The listing of a file in a buffer of any size: its length; or 8, and the buffer as it was.
pub fn rev_listing(file: &[u8], out: &mut [u8]) -> usize
    ensures { (result ≡ answers file.now (listing_of file.now) out.old)
        × (out.new ≡ leaves file.now (listing_of file.now) out.old) }
{
    if LONGEST < file.len() {
        return TOO_LONG;
    }
    // measured first: nothing is stored in a buffer of no bytes
    let all = measure(file, &mut out[..0]);
    if out.len() < all.to {
        return TOO_LONG;
    }
    let mut page = Page::new(out);
    write(&mut page, file, all.slots);
    page.at
}
