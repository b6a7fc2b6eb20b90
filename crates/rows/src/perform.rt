// PERFORM: a plan carried out, once. Only here is a call touched: its side by what is registered, its stand by where it goes
// next, its meters by their change.
ghost use Rattle.std.specs.Prelude.{◌≡◌, leb};
ghost use Rattle.rows.specs.Perform.{note_of, stopping_of, given_as, stand_of, or_held, opened_of, side_of};
ghost use Rattle.rows.specs.Perform.{refused_at, refused_of, given_of, follows_of, does_of, perform_of};

use crate::numbers::{APPLIED, CALLED_PART, CALLING_PART, DURATION_PART, TOO_MUCH, has};
use crate::{
    ABSENT, Act, Call, Component, Flags, Next, Note, Number, Outcome, Phase, Plan, Reading,
    Register, RevState, Role, Side, Stand,
};
use meters::{Meters, Payer};

// A refusal has no actions, so nothing is carried.
const NO_NOTE: Note = Note {
    error: 0,
    cause: 0,
    component: Component::Absent(0),
    parts: 0,
    calling: ABSENT,
    called: ABSENT,
    duration: 0,
};

// STOP: a payer charged at this exchange (the caller, or the called user) changes.
fn stopping(before: Payer, after: Payer) -> Act
    ensures { result ≡ stopping_of before after }
{
    if matches!(before, Payer::Caller | Payer::Called) && after != before {
        Act::Stop
    } else {
        Act::Nothing
    }
}

// Stop as the change of payer makes it; any other action as it stands.
fn given_as(act: Act, stop: Act) -> Act
    ensures { result ≡ given_as act stop }
{
    match act {
        Act::Stop => stop,
        _ => act,
    }
}

fn at(phase: Phase, rev: RevState, agreed: bool, rest: bool) -> Stand
    ensures { result ≡ record { phase = phase; rev = rev; agreed = agreed; rest = rest } }
{
    Stand {
        phase,
        rev,
        agreed,
        rest,
    }
}

// Where the call stands next.
fn stand_of(next: Next, now: Stand) -> Stand
    ensures { result ≡ stand_of next now }
{
    match next {
        Next::Stay => now,
        Next::ToNull => at(Phase::Null, RevState::Idle, false, false),
        Next::ToSetup => at(Phase::Setup, RevState::Idle, false, false),
        Next::ToWaitSetup => at(Phase::Setup, RevState::WaitSetup, false, false),
        Next::ToWaitAnswer => at(Phase::Setup, RevState::WaitAnswer, false, false),
        Next::ToWaitAnswerTransfer => at(Phase::Setup, RevState::WaitAnswer, true, false),
        Next::ToWaitSetupConf => at(Phase::Setup, RevState::WaitSetupConf, false, false),
        Next::ToWaitSetupConfTransfer => at(Phase::Setup, RevState::WaitSetupConf, true, false),
        Next::ToSetupWaitCalled => at(Phase::Setup, RevState::WaitCalled, false, false),
        Next::ToAnswered => at(Phase::Answered, RevState::Idle, false, false),
        Next::ToWaitActive => at(Phase::Answered, RevState::WaitActive, false, false),
        Next::ToWaitActiveConf => at(Phase::Answered, RevState::WaitActiveConf, false, false),
        Next::ToWaitActiveConfTransfer => at(
            Phase::Answered,
            RevState::WaitActiveConf,
            true,
            false,
        ),
        Next::ToWaitCalledRest => at(Phase::Answered, RevState::WaitCalled, false, true),
        Next::ToWaitCalledEntire => at(Phase::Answered, RevState::WaitCalled, false, false),
        Next::ToActive => at(Phase::Answered, RevState::Active, false, false),
        Next::ToCleared => at(Phase::Cleared, RevState::Idle, false, false),
    }
}

// A number that the event carries is registered; where it carries none, what was held stays.
fn or_held(n: Number, held: Number) -> Number
    ensures { result ≡ or_held (leb 1 n.count) n held }
{
    if 1 <= n.count { n } else { held }
}

fn opened(r: Reading) -> Side
    ensures { result ≡ opened_of r }
{
    Side {
        role: if r.item == 1 {
            Role::Destination
        } else {
            Role::Originating
        },
        flags: Flags::from(r.flags),
        own: r.own,
        calling: ABSENT,
        called: ABSENT,
    }
}

// What is registered for charging.
fn side_of(register: Register, side: Side, r: Reading) -> Side
    ensures { result ≡ side_of register side r }
{
    match register {
        Register::AsHeld => side,
        Register::FromOpening => opened(r),
        Register::CalledNumber => Side {
            called: or_held(r.called, side.called),
            ..side
        },
        Register::CallingNumber => Side {
            calling: or_held(r.calling, side.calling),
            ..side
        },
    }
}

impl Call {
    // A refusal: its number, beside 3 the bad field's ordinal, no actions and the call as it stood.
    pub(crate) fn refused_at(self, number: u8, field: u8) -> Outcome
        ensures { result ≡ refused_at number field self }
    {
        Outcome {
            number,
            field,
            call: self,
            note: NO_NOTE,
            first: Act::Nothing,
            second: Act::Nothing,
            third: Act::Nothing,
            fourth: Act::Nothing,
        }
    }

    pub fn refused(self, number: u8) -> Outcome
        ensures { result ≡ refused_of number self }
    {
        self.refused_at(number, 0)
    }

    // The row applied, with the meters that follow. The Duration sent is the caller's meter as it stood before.
    fn follows(self, p: Plan, r: Reading, after: Meters) -> Outcome
        ensures { result ≡ follows_of self p r after }
    {
        p.given(
            Call {
                side: side_of(p.register, self.side, r),
                stand: stand_of(p.next, self.stand),
                meters: after,
            },
            p.note(self.side.own, self.meters.caller),
            stopping(self.meters.payer, after.payer),
        )
    }

    // 2 is the meters' own refusal.
    fn does(self, p: Plan, r: Reading) -> Outcome
        ensures { result ≡ does_of self p r }
    {
        match self.meters.change(p.change, r.seconds) {
            Some(after) => self.follows(p, r, after),
            None => self.refused(TOO_MUCH),
        }
    }

    pub(crate) fn perform(self, p: Plan, r: Reading) -> Outcome
        ensures { result ≡ perform_of self p r }
    {
        if p.number == APPLIED {
            self.does(p, r)
        } else {
            self.refused(p.number)
        }
    }
}

impl Plan {
    // What the plan's actions carry. Only the own number is ever sent; the Duration is the caller's meter.
    fn note(self, own: Number, caller: u32) -> Note
        ensures { result ≡ note_of self.error self.cause self.component self.parts own caller }
    {
        Note {
            error: self.error,
            cause: self.cause,
            component: self.component,
            parts: self.parts,
            calling: if has(self.parts, CALLING_PART) {
                own
            } else {
                ABSENT
            },
            called: if has(self.parts, CALLED_PART) {
                own
            } else {
                ABSENT
            },
            duration: if has(self.parts, DURATION_PART) {
                caller
            } else {
                0
            },
        }
    }

    // The plan's actions, in order.
    fn given(self, call: Call, note: Note, stop: Act) -> Outcome
        ensures { result ≡ given_of self call note stop }
    {
        Outcome {
            number: APPLIED,
            field: 0,
            call,
            note,
            first: given_as(self.first, stop),
            second: given_as(self.second, stop),
            third: given_as(self.third, stop),
            fourth: given_as(self.fourth, stop),
        }
    }
}
