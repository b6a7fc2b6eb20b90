// Which calls the table of document 01 allows (else 9), and which events have their fields in range (else 3).
ghost use Rattle.std.specs.Prelude.{◌≡◌};
ghost use Rattle.rows.specs.Valid.{placed_of, ten_to, in_range, unmetered, tallied, metered_of, paying_there, paying_of};
ghost use Rattle.rows.specs.Valid.{numbers_held, valid_of, number_there, number_absent, number_if, ordinal, first_false, opening_ranges, ask_ranges};
ghost use Rattle.rows.specs.Valid.{code_ok, item_ok, parts_ok, carried_ranges, message_ranges, access_ranges, time_ranges, bad_field_of};

use crate::numbers::{
    ACCEPTED, AS_TRANSFER, CALLED_PART, CALLING_PART, DAY, DURATION_PART, FAC, IAM, has,
};
use crate::telephone::national;
use crate::{ABSENT, Call, Component, Event, Message, Number, Phase, RevState, Role, Side};
use meters::{Meters, Payer};

// ---- 9: a call that a host hands in

// Ten to the count, for a count of at most 15; above that 0, so that no value lies below it. (A table would be laid out on the
// stack at each use.)
// Kept: by `pow` the records of a call are written in 2.03 of plain C's instructions (1.83 so), where at most twice is asked for.
fn ten_to(count: u8) -> u64
    ensures { result ≡ ten_to count }
{
    match count {
        0 => 1,
        1 => 10,
        2 => 100,
        3 => 1000,
        4 => 10000,
        5 => 100000,
        6 => 1000000,
        7 => 10000000,
        8 => 100000000,
        9 => 1000000000,
        10 => 10000000000,
        11 => 100000000000,
        12 => 1000000000000,
        13 => 10000000000000,
        14 => 100000000000000,
        15 => 1000000000000000,
        _ => 0,
    }
}

// A number absent, or of 1 to 15 digits: below ten to the count either way. One without digits is national.
pub fn in_range(n: Number) -> bool
    ensures { result ≡ in_range n }
{
    n.value < ten_to(n.count) && (national(n.nature) || 1 <= n.count)
}

fn unmetered(m: Meters) -> bool
    ensures { result ≡ unmetered m }
{
    m.caller == 0 && m.called == 0 && m.far == 0 && m.total == 0
}

// At the originating exchange the total is the sum of the meters, and so has its limit. At a destination, where the caller is never
// charged, it is not compared with the meters, for a Duration received sets these: it has a limit of its own.
fn tallied(role: Role, m: Meters) -> bool
    ensures { result ≡ tallied role m }
{
    match role {
        Role::Originating => m.adds_up(),
        Role::Destination => m.caller == 0 && m.total_within(),
    }
}

// The payers of an ANSWERED call: there is one, and at a destination the caller is never charged.
fn paying_there(role: Role, p: Payer) -> bool
    ensures { result ≡ paying_there role p }
{
    match role {
        Role::Originating => p != Payer::Nobody,
        Role::Destination => matches!(p, Payer::Called | Payer::Far),
    }
}

// A held number is absent or in range.
fn numbers_held(side: Side) -> bool
    ensures { result ≡ numbers_held side }
{
    in_range(side.own) && in_range(side.calling) && in_range(side.called)
}

impl Call {
    // The table of phases and REV states.
    fn placed(self) -> bool
        ensures { result ≡ placed_of self.side.role self.stand.phase self.stand.rev }
    {
        matches!(
            (self.stand.phase, self.side.role, self.stand.rev),
            (_, _, RevState::Idle)
                | (
                    Phase::Setup,
                    Role::Originating,
                    RevState::WaitSetup | RevState::WaitAnswer
                )
                | (
                    Phase::Setup,
                    Role::Destination,
                    RevState::WaitAnswer | RevState::WaitSetupConf | RevState::WaitCalled
                )
                | (
                    Phase::Answered,
                    Role::Originating,
                    RevState::WaitActive | RevState::Active
                )
                | (
                    Phase::Answered,
                    Role::Destination,
                    RevState::WaitActiveConf | RevState::WaitCalled | RevState::Active
                )
        )
    }

    // The meters that a phase allows.
    fn metered(self) -> bool
        ensures { result ≡ metered_of self.side.role self.stand.phase self.meters }
    {
        match self.stand.phase {
            Phase::Unopened | Phase::Null | Phase::Setup => unmetered(self.meters),
            Phase::Answered | Phase::Cleared => tallied(self.side.role, self.meters),
        }
    }

    // The payers that a phase allows.
    fn paying(self) -> bool
        ensures { result ≡ paying_of self.side.role self.stand.phase self.meters.payer }
    {
        match self.stand.phase {
            Phase::Answered => paying_there(self.side.role, self.meters.payer),
            _ => self.meters.payer == Payer::Nobody,
        }
    }

    // A call that step takes.
    pub(crate) fn valid(self) -> bool
        ensures { result ≡ valid_of self }
    {
        self.placed()
            && self.metered()
            && self.meters.within()
            && self.paying()
            && numbers_held(self.side)
    }
}

// ---- 3: a field out of its range

fn number_there(n: Number) -> bool
    ensures { result ≡ number_there n }
{
    in_range(n) && 1 <= n.count
}

fn number_absent(n: Number) -> bool
    ensures { result ≡ number_absent n }
{
    n == ABSENT
}

// There where it should be, and absent where not.
fn number_if(there: bool, n: Number) -> bool
    ensures { result ≡ number_if there n }
{
    if there {
        number_there(n)
    } else {
        number_absent(n)
    }
}

// ---- The ordinal of the first field of the body that is out of its range, from 1; None where none is

pub fn opening_bad(role: u8, flags: u8, own: Number) -> Option<u8>
    ensures { result ≡ ordinal (first_false 1 (opening_ranges role flags own)) }
{
    if 1 < role {
        Some(1)
    } else if 31 < flags {
        Some(2)
    } else if !number_there(own) {
        Some(3)
    } else {
        None
    }
}

pub fn ask_bad(q: u8, n: Number) -> Option<u8>
    ensures { result ≡ ordinal (first_false 1 (ask_ranges q n)) }
{
    if 3 < q {
        Some(1)
    } else if !number_if(q <= 1, n) {
        Some(2)
    } else {
        None
    }
}

fn code_ok(x: Component) -> bool
    ensures { result ≡ code_ok x }
{
    !matches!(x, Component::Unknown(..))
}

fn item_ok(x: Component) -> bool
    ensures { result ≡ item_ok x }
{
    matches!(
        x,
        Component::Absent(0)
            | Component::Invoke(1..=3)
            | Component::Result(1..=3)
            | Component::Error(_)
            | Component::Reject(0)
            | Component::Unknown(..)
    )
}

// Part 4 without part 2 is a bad field; so are parts that do not name a number or Duration which is there.
fn parts_ok(m: Message) -> bool
    ensures { result ≡ parts_ok m }
{
    m.parts <= 127
        && (has(m.parts, ACCEPTED) || !has(m.parts, AS_TRANSFER))
        && (has(m.parts, CALLING_PART) || number_absent(m.calling))
        && (has(m.parts, CALLED_PART) || number_absent(m.called))
        && (has(m.parts, DURATION_PART) || m.duration == 0)
}

// What the parts name begins with field 6: the calling number, then the called number, which is 6 where it stands alone. The Duration may
// be any.
fn carried_bad(m: Message) -> Option<u8>
    ensures { result ≡ ordinal (first_false 6 (carried_ranges m)) }
{
    let calling = has(m.parts, CALLING_PART);
    if calling && !number_there(m.calling) {
        Some(6)
    } else if has(m.parts, CALLED_PART) && !number_there(m.called) {
        Some(if calling { 7 } else { 6 })
    } else {
        None
    }
}

pub fn message_bad(m: Message) -> Option<u8>
    ensures { result ≡ ordinal (first_false 1 (message_ranges m)) }
{
    if !matches!(m.kind, IAM..=FAC) {
        Some(1)
    } else if 127 < m.cause {
        Some(2)
    } else if !code_ok(m.component) {
        Some(3)
    } else if !item_ok(m.component) {
        Some(4)
    } else if !parts_ok(m) {
        Some(5)
    } else {
        carried_bad(m)
    }
}

pub fn access_bad(a: u8, n: u8) -> Option<u8>
    ensures { result ≡ ordinal (first_false 1 (access_ranges a n)) }
{
    if !matches!(a, 1..=5) {
        Some(1)
    } else if a != 2 && n != 0 {
        Some(2)
    } else {
        None
    }
}

pub fn time_bad(seconds: u32) -> Option<u8>
    ensures { result ≡ ordinal (first_false 1 (time_ranges seconds)) }
{
    if DAY < seconds { Some(1) } else { None }
}

pub(crate) fn bad_field(e: Event) -> Option<u8>
    ensures { result ≡ ordinal (bad_field_of e) }
{
    match e {
        Event::Opening(role, flags, own) => opening_bad(role, flags, own),
        Event::Ask(q, n) => ask_bad(q, n),
        Event::Received(m) => message_bad(m),
        Event::FromAccess(a, n) => access_bad(a, n),
        Event::Expiry => None,
        Event::Time(seconds) => time_bad(seconds),
    }
}
