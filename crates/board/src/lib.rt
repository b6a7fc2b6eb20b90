// A row of calls that a host lends, one record each (02 #107). Its first 64 calls are slots, and an event names one. What is lent
// stays the host's: a step changes the call in its slot and no other, and the question for a free slot changes none.
#![tactic(auto)]

ghost use Rattle.std.specs.Prelude.{◌≡◌, position, take};
ghost use Rattle.rows.specs.Step.{free_of};
ghost use Rattle.board.specs.Numbers.{slots};
ghost use Rattle.board.specs.Row.{no_slot, answer_at, row_after, free_number, free_slot, lowest_free, number_asked};

use rows::{APPLIED, Call, Event, Outcome};

// "A host lends a row of up to 64 calls": a longer one has no more slots than these.
pub const SLOTS: usize = 64;

// "19 no such slot (past the row's end or past 63)".
pub const NO_SUCH_SLOT: u8 = 19;

// "21 none free".
const NONE_FREE: u8 = 21;

// The number of an answer to the question for the lowest free slot: 0 beside a slot, or 21.
// Kept: a number and a value beside it, here and below: 02 #107 names 21 ("none free"), and `nowhere_exactly` speaks of the number.
pub fn free_number(free: Option<usize>) -> u8
    ensures { result ≡ free_number free }
{
    match free {
        Some(_) => APPLIED,
        None => NONE_FREE,
    }
}

// Its slot; beside 21 there is none, and this is 0.
pub fn free_slot(free: Option<usize>) -> usize
    ensures { result ≡ free_slot free }
{
    free.unwrap_or(0)
}

// The answer where there is no such slot: 19, with an unopened call.
pub fn no_slot() -> Outcome
    ensures { result ≡ no_slot }
{
    Call::unopened().refused(NO_SUCH_SLOT)
}

// One event at the slot that it names: the answer is that of the slot's call, and the call that follows takes its place. Where there
// is no such slot the row stays as it was.
pub fn step_slot(row: &mut [Call], slot: usize, e: Event) -> Outcome
    ensures { (result ≡ answer_at row.old slot e) × (row.new ≡ row_after row.old slot e) }
{
    if slot < SLOTS && slot < row.len() {
        let out = row[slot].step(e);
        row[slot] = out.after();
        out
    } else {
        no_slot()
    }
}

// The first of the row's slots whose call is free.
fn first_free(row: &[Call]) -> Option<usize>
    ensures { result ≡ position free_of (take slots row.now) }
{
    row.iter().take(SLOTS).position(|c| c.is_free())
}

// "The host may ask for the lowest free slot; it is refused exactly if none is free."
pub fn lowest_free(row: &[Call]) -> Option<usize>
    ensures { (result ≡ lowest_free row.now) × (free_number result ≡ number_asked row.now) }
{
    first_free(row)
}
