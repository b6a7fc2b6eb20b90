// WHY there was no row: asked only of an event that found none, and by tables smaller than those that find rows, for a file may be full of
// such events.
ghost use Rattle.std.specs.Prelude.{◌≡◌};
ghost use Rattle.rows.specs.Why.{why_of, small_has, small_ever, vacant_has, originating_null_has, originating_setup_has};
ghost use Rattle.rows.specs.Why.{originating_answered_has, destination_null_has, destination_setup_has, destination_answered_has};

use crate::numbers::{NO_ROW, WRONG_PHASE, WRONG_STATE};
use crate::{Cue, Kind, Phase, Role};

// ---- Each phase: the events that have a row in one of its REV states

// before the opening, and after the clearing.
fn vacant_has(event: Cue) -> bool
    ensures { result ≡ vacant_has event.kind event }
{
    matches!(event.kind, Kind::Opens)
}

// originating, NULL.
fn originating_null_has(event: Cue) -> bool
    ensures { result ≡ originating_null_has event.kind event }
{
    match event.kind {
        Kind::Asks => event.asked.basic || event.asked.casea,
        _ => false,
    }
}

// originating, SETUP.
fn originating_setup_has(event: Cue) -> bool
    ensures { result ≡ originating_setup_has event.kind event }
{
    match event.kind {
        Kind::Answer => event.heard.alone || event.heard.resultsetup,
        Kind::Fac => event.heard.invokecalled,
        Kind::Tells => event.told.clears,
        Kind::Rel | Kind::Expires | Kind::Passes => true,
        _ => false,
    }
}

// originating, ANSWERED.
fn originating_answered_has(event: Cue) -> bool
    ensures { result ≡ originating_answered_has event.kind event }
{
    match event.kind {
        Kind::Asks => event.asked.caseb || event.asked.reversal,
        Kind::Fac => {
            event.heard.invokecalled
                || event.heard.invoke
                || event.heard.resultactive
                || event.heard.failure
                || event.heard.rejection
                || event.heard.alone
        }
        Kind::Tells => event.told.clears,
        Kind::Rel | Kind::Expires | Kind::Passes => true,
        _ => false,
    }
}

// destination, NULL.
fn destination_null_has(event: Cue) -> bool
    ensures { result ≡ destination_null_has event.kind event }
{
    match event.kind {
        Kind::Iam => event.heard.alone || event.heard.invokesetup,
        _ => false,
    }
}

// destination, SETUP.
fn destination_setup_has(event: Cue) -> bool
    ensures { result ≡ destination_setup_has event.kind event }
{
    match event.kind {
        Kind::Asks => event.asked.reversal,
        Kind::Fac => event.heard.invoke
            || event.heard.resultcalled
            || event.heard.failure
            || event.heard.rejection,
        Kind::Tells => {
            event.told.answers
                || event.told.clears
                || event.told.accepts
                || event.told.refuses
                || event.told.rejects
        }
        Kind::Rel | Kind::Expires | Kind::Passes => true,
        _ => false,
    }
}

// destination, ANSWERED.
fn destination_answered_has(event: Cue) -> bool
    ensures { result ≡ destination_answered_has event.kind event }
{
    match event.kind {
        Kind::Asks => event.asked.caseb || event.asked.casec || event.asked.reversal,
        Kind::Fac => {
            event.heard.invokeactive
                || event.heard.invoke
                || event.heard.resultcalled
                || event.heard.failure
                || event.heard.rejection
        }
        Kind::Tells => event.told.clears
            || event.told.accepts
            || event.told.refuses
            || event.told.rejects,
        Kind::Rel | Kind::Expires | Kind::Passes => true,
        _ => false,
    }
}

// The role has a row for the event in this phase.
fn has_row(role: Role, phase: Phase, event: Cue) -> bool
    ensures { result ≡ small_has role phase event }
{
    match (role, phase) {
        (_, Phase::Unopened | Phase::Cleared) => vacant_has(event),
        (Role::Originating, Phase::Null) => originating_null_has(event),
        (Role::Originating, Phase::Setup) => originating_setup_has(event),
        (Role::Originating, Phase::Answered) => originating_answered_has(event),
        (Role::Destination, Phase::Null) => destination_null_has(event),
        (Role::Destination, Phase::Setup) => destination_setup_has(event),
        (Role::Destination, Phase::Answered) => destination_answered_has(event),
    }
}

// At any time.
fn has_ever(role: Role, event: Cue) -> bool
    ensures { result ≡ small_ever role event }
{
    has_row(role, Phase::Unopened, event)
        || has_row(role, Phase::Null, event)
        || has_row(role, Phase::Setup, event)
        || has_row(role, Phase::Answered, event)
        || has_row(role, Phase::Cleared, event)
}

// The number for an event that found no row in this phase.
// Kept: the number itself, as `why_of` has it and an Outcome gives it.
pub(crate) fn why(role: Role, phase: Phase, event: Cue) -> u8
    ensures { result ≡ why_of role phase event }
{
    if has_row(role, phase, event) {
        WRONG_STATE
    } else if has_ever(role, event) {
        WRONG_PHASE
    } else {
        NO_ROW
    }
}
