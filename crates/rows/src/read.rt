// What an event says: in one form for all kinds, to the tables that find its row, and to the rows.
ghost use Rattle.std.specs.Prelude.{◌≡◌};
ghost use Rattle.rows.specs.Read.{flags_of, asked_of, told_of, heard_of, kind_of, error_of, plain_of, read_message};
ghost use Rattle.rows.specs.Read.{read_of, cue_of, listed_of, interaction_by, judged_by, mode_by, extent_by, service_by, correct_by, terms_of};

use crate::numbers::{
    ACCEPTED, ALREADY_RUNNING, ANM, AS_TRANSFER, BASIC_SERVICE_NOT_PROVIDED, CALLED_PART,
    CALLED_REQUEST, CALLING_PART, CALLING_REQ_ACTIVE, CALLING_REQ_SETUP, CON, DURATION_PART, IAM,
    INTERACTION_NOT_ALLOWED, NORMAL_CLEARING, NOT_AVAILABLE, PARTIAL, REJECTED_BY_NETWORK,
    REJECTED_BY_USER, REL, RESOURCE_UNAVAILABLE, USER_IGNORED, USER_NOT_SUBSCRIBED, has,
};
use crate::{
    ABSENT, Asked, Component, Correctness, Cue, Event, Extent, Flags, Heard, Interaction, Judged,
    Kind, Message, Mode, Reading, Service, Stand, Terms, Told,
};

// 01, kind 1: 1 transfer, 2 subscription option, 4 subscribed, 8 interaction allowed, 16 case D.
impl From<u8> for Flags {
    ghost from_gives = { λ n given. given ≡ flags_of n };

    fn from(n: u8) -> Self {
        Flags {
            transfer: n % 2 == 1,
            option: has(n, 2),
            subscribed: has(n, 4),
            interaction: has(n, 8),
            unconditional: has(n, 16),
        }
    }
}

// 01, kind 2: 0 basic call, 1 A, 2 B, 3 C.
impl From<u8> for Asked {
    ghost from_gives = { λ n given. given ≡ asked_of n };

    fn from(n: u8) -> Self {
        Asked {
            basic: n == 0,
            casea: n == 1,
            caseb: n == 2,
            casec: n == 3,
            reversal: matches!(n, 1..=3),
        }
    }
}

// 01, kind 4: 1 accept, 2 error, 3 reject, 4 clear, 5 answer without REV.
impl From<u8> for Told {
    ghost from_gives = { λ n given. given ≡ told_of n };

    fn from(n: u8) -> Self {
        Told {
            accepts: n == 1,
            refuses: n == 2,
            rejects: n == 3,
            clears: n == 4,
            answers: n == 5,
        }
    }
}

// A component of which no row has heard.
const NOTHING_HEARD: Heard = Heard {
    alone: false,
    invoke: false,
    invokesetup: false,
    invokeactive: false,
    invokecalled: false,
    resultsetup: false,
    resultactive: false,
    resultcalled: false,
    failure: false,
    rejection: false,
};

impl From<Component> for Heard {
    ghost from_gives = { λ component given. given ≡ heard_of component };

    fn from(component: Component) -> Self {
        match component {
            Component::Absent(_) => Heard {
                alone: true,
                ..NOTHING_HEARD
            },
            Component::Invoke(n) => Heard {
                invoke: true,
                invokesetup: n == CALLING_REQ_SETUP,
                invokeactive: n == CALLING_REQ_ACTIVE,
                invokecalled: n == CALLED_REQUEST,
                ..NOTHING_HEARD
            },
            Component::Result(n) => Heard {
                resultsetup: n == CALLING_REQ_SETUP,
                resultactive: n == CALLING_REQ_ACTIVE,
                resultcalled: n == CALLED_REQUEST,
                ..NOTHING_HEARD
            },
            Component::Error(_) => Heard {
                failure: true,
                ..NOTHING_HEARD
            },
            Component::Reject(_) => Heard {
                rejection: true,
                ..NOTHING_HEARD
            },
            Component::Unknown(_, _) => NOTHING_HEARD,
        }
    }
}

// A message, by its number; a message that is none of 1 to 5 gets 3 before any row is looked for.
fn kind_of(n: u8) -> Kind
    ensures { result ≡ kind_of n }
{
    match n {
        IAM => Kind::Iam,
        ANM | CON => Kind::Answer,
        REL => Kind::Rel,
        _ => Kind::Fac,
    }
}

fn error_of(component: Component) -> u8
    ensures { result ≡ error_of component }
{
    match component {
        Component::Error(n) => n,
        _ => 0,
    }
}

// An event that says nothing but its kind.
fn only(kind: Kind) -> Reading
    ensures { result ≡ plain_of kind 0 0 0 0 }
{
    Reading {
        kind,
        item: 0,
        flags: 0,
        component: Component::Absent(0),
        parts: 0,
        error: 0,
        cause: 0,
        seconds: 0,
        own: ABSENT,
        calling: ABSENT,
        called: ABSENT,
    }
}

impl From<Event> for Reading {
    ghost from_gives = { λ event given. given ≡ read_of event };

    fn from(event: Event) -> Self {
        match event {
            Event::Opening(role, flags, own) => Reading {
                item: role,
                flags,
                own,
                ..only(Kind::Opens)
            },
            Event::Ask(item, called) => Reading {
                item,
                called,
                ..only(Kind::Asks)
            },
            Event::Received(message) => Reading::from(message),
            // The access gives no cause: 16 if none.
            Event::FromAccess(item, error) => Reading {
                item,
                error,
                cause: NORMAL_CLEARING,
                ..only(Kind::Tells)
            },
            Event::Expiry => only(Kind::Expires),
            Event::Time(seconds) => Reading {
                seconds,
                ..only(Kind::Passes)
            },
        }
    }
}

impl From<Message> for Reading {
    ghost from_gives = { λ message given. given ≡ read_message message };

    fn from(message: Message) -> Self {
        Reading {
            component: message.component,
            parts: message.parts,
            error: error_of(message.component),
            cause: message.cause,
            seconds: message.duration,
            calling: message.calling,
            called: message.called,
            ..only(kind_of(message.kind))
        }
    }
}

impl From<Reading> for Cue {
    ghost from_gives = { λ reading given. given ≡ cue_of reading };

    fn from(reading: Reading) -> Self {
        Cue {
            kind: reading.kind,
            asked: Asked::from(reading.item),
            heard: Heard::from(reading.component),
            told: Told::from(reading.item),
        }
    }
}

// Which errors are REV's, and so valid: those that 001's module lists (3.4.2, error values), in its order.
fn listed(n: u8) -> bool
    ensures { result ≡ listed_of n }
{
    matches!(
        n,
        USER_NOT_SUBSCRIBED
            | REJECTED_BY_NETWORK
            | REJECTED_BY_USER
            | NOT_AVAILABLE
            | INTERACTION_NOT_ALLOWED
            | BASIC_SERVICE_NOT_PROVIDED
            | RESOURCE_UNAVAILABLE
            | USER_IGNORED
            | ALREADY_RUNNING
    )
}

// ---- What the rows look at, in words

impl From<bool> for Interaction {
    ghost from_gives = { λ allowed given. given ≡ interaction_by allowed };

    fn from(allowed: bool) -> Self {
        if allowed {
            Interaction::Allowed
        } else {
            Interaction::NotAllowed
        }
    }
}

impl From<bool> for Mode {
    ghost from_gives = { λ transfer given. given ≡ mode_by transfer };

    fn from(transfer: bool) -> Self {
        if transfer {
            Mode::Transfer
        } else {
            Mode::NoTransfer
        }
    }
}

impl From<bool> for Extent {
    ghost from_gives = { λ partial given. given ≡ extent_by partial };

    fn from(partial: bool) -> Self {
        if partial {
            Extent::Rest
        } else {
            Extent::Entire
        }
    }
}

impl From<bool> for Service {
    ghost from_gives = { λ unconditional given. given ≡ service_by unconditional };

    fn from(unconditional: bool) -> Self {
        if unconditional {
            Service::Unconditional
        } else {
            Service::OnRequest
        }
    }
}

impl From<bool> for Correctness {
    ghost from_gives = { λ listed given. given ≡ correct_by listed };

    fn from(listed: bool) -> Self {
        if listed {
            Correctness::Correct
        } else {
            Correctness::Incorrect
        }
    }
}

// The subscription first, then interaction.
fn judged_by(barred: bool, allowed: bool) -> Judged
    ensures { result ≡ judged_by barred allowed }
{
    if barred {
        Judged::NotSubscribed
    } else if allowed {
        Judged::Passed
    } else {
        Judged::InteractionNotAllowed
    }
}

pub(crate) fn terms_of(flags: Flags, at: Stand, reading: Reading) -> Terms
    ensures { result ≡ terms_of flags at reading }
{
    let transfer_asked = reading.parts % 2 == 1;
    let transfer_accepted = has(reading.parts, ACCEPTED) && has(reading.parts, AS_TRANSFER);
    Terms {
        interaction: Interaction::from(flags.interaction),
        judged: judged_by(flags.option && !flags.subscribed, flags.interaction),
        mode: Mode::from(flags.transfer),
        service: Service::from(flags.unconditional),
        taken: Mode::from(flags.transfer && transfer_asked),
        accepted: Mode::from(flags.transfer && transfer_accepted),
        extent: Extent::from(has(reading.parts, PARTIAL)),
        agreed: Mode::from(at.agreed),
        asked: Extent::from(at.rest),
        called: transfer_asked || has(reading.parts, CALLED_PART),
        calling: has(reading.parts, CALLING_PART),
        duration: has(reading.parts, DURATION_PART),
        correct: Correctness::from(listed(reading.error)),
        error: reading.error,
        cause: reading.cause,
    }
}
