// What a host in C is given back: a number and a rest, as number + 256 * rest.
ghost use Rattle.std.specs.Prelude.{◌≡◌, ◌+◌, ◌^◌, ◌<◌};
ghost use Rattle.peers.specs.Entries.{with_rest, number_told, rest_told, given, KeptWithin, in_record_told};
ghost use Rattle.peers.specs.declared.Refusal.TheVariants.{BadParameter};

use crate::Refusal;
use wire::Unwritten;

impl From<wire::Refusal> for Refusal {
    ghost from_gives = { λ r s. s ≡ BadParameter r };

    fn from(r: wire::Refusal) -> Refusal {
        Refusal::BadParameter(r)
    }
}

// A field of the component is told as one of the record, in which message and cause stand before it.
pub(crate) fn in_record(k: u8) -> u16
    ensures { result ≡ 2 + k }
{
    2 + u16::from(k)
}

impl From<Unwritten> for Refusal {
    ghost from_gives = { λ u s. s ≡ in_record_told u };

    fn from(u: Unwritten) -> Refusal {
        match u {
            Unwritten::BadField(k) => Refusal::BadField(in_record(k)),
            Unwritten::NoRoom => Refusal::NoRoom,
        }
    }
}

impl Refusal {
    // As document 01 has it.
    fn number(self) -> u8
        ensures { result ≡ number_told self }
    {
        match self {
            Refusal::BadField(_) | Refusal::OtherKind => 3,
            Refusal::NoRoom => 8,
            Refusal::BadRecord(stop) => stop.number(),
            Refusal::BadParameter(r) => r.number,
        }
    }

    // The field, or the place.
    fn rest(self) -> usize
        ensures { result ≡ rest_told self }
    {
        match self {
            Refusal::BadField(k) => usize::from(k),
            Refusal::BadParameter(r) => r.place,
            Refusal::OtherKind | Refusal::NoRoom | Refusal::BadRecord(_) => 0,
        }
    }
}

fn with_rest(number: u8, rest: usize) -> u32
    requires { rest < 2 ^ 23 }
    ensures { result ≡ with_rest number rest }
{
    u32::from(number) + 256 * rest as u32
}

// Of what was written its length.
pub(crate) fn given(w: Result<usize, Refusal>) -> u32
    requires { KeptWithin w }
    ensures { result ≡ given w }
{
    match w {
        Ok(n) => with_rest(0, n),
        Err(r) => with_rest(r.number(), r.rest()),
    }
}
