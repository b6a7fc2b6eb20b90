// Where the records of a file stand.
ghost use Rattle.std.specs.Prelude.{◌≡◌, ◌-◌, length};
ghost use Rattle.std.specs.Iterator.{at_most};
ghost use Rattle.files.specs.Listing.{after_frame};
ghost use Rattle.files.specs.Places.{place_after, places_of, GoesOn};

use crate::frames::frame;
use crate::{Frame, Record, Unreadable};

// The place after what was found; where there is no record, or none that can be read, `stay`.
#[tactic(auto, unfolding(crate::specs::Places::place_after))]
pub(crate) fn place_after(found: Option<Result<Record, Unreadable>>, stay: usize) -> usize
    ensures { result ≡ place_after found stay }
{
    match found {
        Some(Ok(record)) => record.next,
        _ => stay,
    }
}

// The place after a record, `stay` where it cannot be read.
fn after_frame(f: Result<Frame, Unreadable>, stay: usize) -> usize
    ensures { result ≡ after_frame f stay }
{
    f.map_or(stay, |frame| frame.next)
}

// The records of a file, each by its place and its frame. One that cannot be read is the last.
#[derive(Drop)]
pub(crate) struct Records<'a> {
    file: &'a [u8],
    at: usize,
}

impl<'a> Records<'a> {
    pub(crate) fn of(file: &'a [u8]) -> Records<'a>
        ensures { (result.file ≡ file.entry) × (result.at ≡ 0) }
    {
        Records { file, at: 0 }
    }
}

impl<'a> Iterator for Records<'a> {
    type Item = (usize, Result<Frame, Unreadable>);

    ghost next_gives = { GoesOn };

    ghost remaining = { λ s. at_most (length s.file.now - s.at) };

    fn next(&mut self) -> Option<(usize, Result<Frame, Unreadable>)> {
        let at = self.at;
        if self.file.len() <= at {
            return None;
        }
        let f = frame(self.file, at);
        self.at = after_frame(f, self.file.len());
        Some((at, f))
    }
}

// How many records a file has. One that cannot be read counts too, and is the last.
pub fn count_records(file: &[u8]) -> usize
    ensures { result ≡ length (places_of file.now) }
{
    Records::of(file).count()
}
