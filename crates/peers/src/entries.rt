// The entries of a parameter's components: an identifier, and the record of the event.
ghost use Rattle.std.specs.Prelude.{ℕ, ◌≡◌, ◌∷◌, [], ◌+◌, ◌*◌, ◌≤◌, ◌<◌, length};
ghost use Rattle.text.specs.Text.{Put};
ghost use Rattle.files.specs.Bodies.{record_of};
ghost use Rattle.rows.specs.declared.Event.TheVariants.{Received};
ghost use Rattle.wire.specs.Parameters.{walk_of, holds};
ghost use Rattle.peers.specs.Messages.{no_component, heard_of};
ghost use Rattle.peers.specs.Entries.{entry_of, carrier_bad, ended_of, Keeps, KeptWithin};

use crate::Refusal;
use crate::messages::{heard, none};
use wire::Component;

// How long the entry of a component is, whatever message carries it: its parts alone say so. (The message is made in put_entry, once the
// entries that follow stand in the buffer: what `keep` makes before it calls itself is on the stack for each component of a parameter.)
fn entry_size(c: &Component) -> usize
    ensures { ((message cause : ℕ) → result ≡ 2 + length (record_of (Received (heard_of message cause c.now)))) × (result ≤ 33) }
{
    2 + files::message_size(c.parts)
}

fn put_entry(out: &mut [u8], at: usize, id: u16, message: u8, cause: u8, c: &Component) -> usize
    requires { at + (2 + length (record_of (Received (heard_of message cause c.now)))) ≤ length out.old }
    ensures { Put out.old at (entry_of id (Received (heard_of message cause c.now))) out.new result }
{
    let to = files::put_2(out, at, u64::from(id));
    let n = files::put_message(&mut out[to..], heard(message, cause, *c));
    to + n
}

// Entries that end at a place, of which all are read. A component that was read is in range, so only what carries it is judged: message 1 to
// 5, cause 0 to 127. In a record they are fields 1 and 2.
#[tactic(auto, unfolding(text::specs::Choose::if_so, text::specs::Choose::if_lt, text::specs::Choose::if_eq, crate::specs::Entries::carrier_bad, crate::specs::Entries::ended_of))]
fn ended(message: u8, cause: u8, room: usize, to: usize) -> Result<usize, Refusal>
    ensures { result ≡ ended_of (carrier_bad message cause) room to }
{
    if !(1..=5).contains(&message) {
        Err(Refusal::BadField(1))
    } else if 127 < cause {
        Err(Refusal::BadField(2))
    } else if room < to {
        Err(Refusal::NoRoom)
    } else {
        Ok(to)
    }
}

// The one entry of a parameter without components.
pub(crate) fn write_none(message: u8, cause: u8, out: &mut [u8]) -> Result<usize, Refusal>
    ensures { Keeps message cause (holds (no_component ∷ [])) out.old 0 result out.new × KeptWithin result }
{
    let c = none();
    let n = ended(message, cause, out.len(), entry_size(&c))?;
    put_entry(out, 0, c.id, message, cause, &c);
    Ok(n)
}

// The entries of the components from a place on. Nothing may be written before all are read: each is put once those that follow it stand in
// the buffer, so that no room is needed but the stack's, for the 36 components at most that a parameter can have.
pub(crate) fn keep(
    s: &[u8],
    at: usize,
    message: u8,
    cause: u8,
    out: &mut [u8],
    to: usize,
) -> Result<usize, Refusal>
    requires { (at ≤ length s.now) × (length s.now ≤ 257) × (to ≤ 33 * at) }
    ensures { Keeps message cause (walk_of s.now at) out.old to result out.new × KeptWithin result }
{
    if s.len() <= at {
        return ended(message, cause, out.len(), to);
    }
    let (c, next) = wire::read_component(s, at)?;
    let n = entry_size(&c);
    let end = keep(s, next, message, cause, out, to + n)?;
    put_entry(out, to, c.id, message, cause, &c);
    Ok(end)
}

// The same of a whole parameter, from its first component on, which mostly is the only one.
// Kept: this step once more, since a reader that `keep` alone called would stand on the stack for each component (272 bytes each, 240 so).
pub(crate) fn keep_all(s: &[u8], message: u8, cause: u8, out: &mut [u8]) -> Result<usize, Refusal>
    requires { (3 < length s.now) × (length s.now ≤ 257) }
    ensures { Keeps message cause (walk_of s.now 3) out.old 0 result out.new × KeptWithin result }
{
    let (c, next) = wire::read_component(s, 3)?;
    let n = entry_size(&c);
    let end = keep(s, next, message, cause, out, n)?;
    put_entry(out, 0, c.id, message, cause, &c);
    Ok(end)
}
