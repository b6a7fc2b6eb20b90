// FIND: the row for an event, by role, phase, REV state and what the event is. One table for each place that 01 allows;
// none of them sees the call. In a table a line is a kind of event and what is asked of it: the first that fits has the row.
// Kept: tables of the same kinds with other rows stay apart, since each is a table of docs/ROWS.md with its own definition (Find.antt).
ghost use Rattle.std.specs.Prelude.{◌≡◌};
ghost use Rattle.rows.specs.Find.{vacant_of, originating_null_of, originating_setup_idle_of, wait_setup_of, originating_wait_answer_of};
ghost use Rattle.rows.specs.Find.{originating_answered_idle_of, wait_active_of, active_of, destination_null_of, destination_setup_idle_of};
ghost use Rattle.rows.specs.Find.{wait_setup_conf_of, setup_wait_called_of, destination_wait_answer_of, destination_answered_idle_of};
ghost use Rattle.rows.specs.Find.{wait_active_conf_of, answered_wait_called_of, row_for_of};

use crate::{Cue, Kind, Phase, RevState, Role, Row};

// before the opening, and after the clearing.
fn vacant(event: Cue) -> Option<Row>
    ensures { result ≡ vacant_of event.kind event }
{
    match event.kind {
        Kind::Opens => Some(Row::Opened),
        _ => None,
    }
}

// originating, NULL.
fn originating_null(event: Cue) -> Option<Row>
    ensures { result ≡ originating_null_of event.kind event }
{
    match event.kind {
        Kind::Asks if event.asked.basic => Some(Row::BasicRequest),
        Kind::Asks if event.asked.casea => Some(Row::AskSetup),
        _ => None,
    }
}

// originating, SETUP, IDLE.
fn originating_setup_idle(event: Cue) -> Option<Row>
    ensures { result ≡ originating_setup_idle_of event.kind event }
{
    match event.kind {
        Kind::Answer if event.heard.alone => Some(Row::BasicAnswer),
        Kind::Rel => Some(Row::Released),
        Kind::Fac if event.heard.invokecalled => Some(Row::UnconditionalAsked),
        Kind::Tells if event.told.clears => Some(Row::ClearedHere),
        Kind::Passes => Some(Row::TimeInSetup),
        _ => None,
    }
}

// originating, SETUP, WAIT-SETUP.
fn wait_setup(event: Cue) -> Option<Row>
    ensures { result ≡ wait_setup_of event.kind event }
{
    match event.kind {
        Kind::Answer if event.heard.resultsetup => Some(Row::SetupAccepted),
        Kind::Answer if event.heard.alone => Some(Row::SetupFailed),
        Kind::Rel if event.heard.failure => Some(Row::SetupError),
        Kind::Rel if event.heard.rejection => Some(Row::SetupReleased),
        Kind::Rel if event.heard.alone => Some(Row::SetupReleased),
        Kind::Rel => Some(Row::Released),
        Kind::Tells if event.told.clears => Some(Row::ClearedHere),
        Kind::Expires => Some(Row::SetupFailed),
        Kind::Passes => Some(Row::TimeInSetup),
        _ => None,
    }
}

// originating, SETUP, WAIT-ANSWER.
fn originating_wait_answer(event: Cue) -> Option<Row>
    ensures { result ≡ originating_wait_answer_of event.kind event }
{
    match event.kind {
        Kind::Answer if event.heard.alone => Some(Row::UnconditionalAnswered),
        Kind::Rel => Some(Row::Released),
        Kind::Tells if event.told.clears => Some(Row::ClearedHere),
        Kind::Passes => Some(Row::TimeInSetup),
        _ => None,
    }
}

// originating, ANSWERED, IDLE.
fn originating_answered_idle(event: Cue) -> Option<Row>
    ensures { result ≡ originating_answered_idle_of event.kind event }
{
    match event.kind {
        Kind::Asks if event.asked.caseb => Some(Row::AskActive),
        Kind::Rel => Some(Row::Released),
        Kind::Fac if event.heard.invokecalled => Some(Row::CalledAsked),
        Kind::Tells if event.told.clears => Some(Row::ClearedHere),
        Kind::Passes => Some(Row::TimeCounts),
        _ => None,
    }
}

// originating, ANSWERED, WAIT-ACTIVE.
fn wait_active(event: Cue) -> Option<Row>
    ensures { result ≡ wait_active_of event.kind event }
{
    match event.kind {
        Kind::Asks if event.asked.reversal => Some(Row::RunningHere),
        Kind::Rel => Some(Row::WaitReleased),
        Kind::Fac if event.heard.invoke => Some(Row::RunningThere),
        Kind::Fac if event.heard.resultactive => Some(Row::ActiveAccepted),
        Kind::Fac if event.heard.failure => Some(Row::WaitError),
        Kind::Fac if event.heard.rejection => Some(Row::WaitFailed),
        Kind::Fac if event.heard.alone => Some(Row::WaitFailed),
        Kind::Tells if event.told.clears => Some(Row::ClearedHere),
        Kind::Expires => Some(Row::WaitFailed),
        Kind::Passes => Some(Row::TimeCounts),
        _ => None,
    }
}

// both roles, ANSWERED, ACTIVE.
fn active(event: Cue) -> Option<Row>
    ensures { result ≡ active_of event.kind event }
{
    match event.kind {
        Kind::Asks if event.asked.reversal => Some(Row::RunningHere),
        Kind::Rel => Some(Row::Released),
        Kind::Fac if event.heard.invoke => Some(Row::RunningThere),
        Kind::Tells if event.told.clears => Some(Row::ClearedHere),
        Kind::Passes => Some(Row::TimeCounts),
        _ => None,
    }
}

// destination, NULL.
fn destination_null(event: Cue) -> Option<Row>
    ensures { result ≡ destination_null_of event.kind event }
{
    match event.kind {
        Kind::Iam if event.heard.alone => Some(Row::PlainIam),
        Kind::Iam if event.heard.invokesetup => Some(Row::SetupAsked),
        _ => None,
    }
}

// destination, SETUP, IDLE.
fn destination_setup_idle(event: Cue) -> Option<Row>
    ensures { result ≡ destination_setup_idle_of event.kind event }
{
    match event.kind {
        Kind::Rel => Some(Row::Released),
        Kind::Tells if event.told.answers => Some(Row::AnsweredHere),
        Kind::Tells if event.told.clears => Some(Row::ClearedHere),
        Kind::Passes => Some(Row::TimeInSetup),
        _ => None,
    }
}

// destination, SETUP, WAIT-SETUP-CONF.
fn wait_setup_conf(event: Cue) -> Option<Row>
    ensures { result ≡ wait_setup_conf_of event.kind event }
{
    match event.kind {
        Kind::Rel => Some(Row::Released),
        Kind::Tells if event.told.accepts => Some(Row::SetupConfirmed),
        Kind::Tells if event.told.refuses => Some(Row::SetupRefused),
        Kind::Tells if event.told.rejects => Some(Row::SetupRejected),
        Kind::Tells if event.told.clears => Some(Row::ClearedHere),
        Kind::Tells if event.told.answers => Some(Row::SetupIgnored),
        Kind::Expires => Some(Row::SetupExpired),
        Kind::Passes => Some(Row::TimeInSetup),
        _ => None,
    }
}

// destination, SETUP, WAIT-CALLED.
fn setup_wait_called(event: Cue) -> Option<Row>
    ensures { result ≡ setup_wait_called_of event.kind event }
{
    match event.kind {
        Kind::Asks if event.asked.reversal => Some(Row::RunningHere), // case D: the wait goes on
        Kind::Rel => Some(Row::Released),
        Kind::Fac if event.heard.invoke => Some(Row::RunningThere),
        Kind::Fac if event.heard.resultcalled => Some(Row::UnconditionalAccepted),
        Kind::Fac if event.heard.failure => Some(Row::UnconditionalFailed),
        Kind::Fac if event.heard.rejection => Some(Row::UnconditionalFailed),
        Kind::Tells if event.told.clears => Some(Row::ClearedHere),
        Kind::Expires => Some(Row::UnconditionalFailed),
        Kind::Passes => Some(Row::TimeInSetup),
        _ => None,
    }
}

// destination, SETUP, WAIT-ANSWER.
fn destination_wait_answer(event: Cue) -> Option<Row>
    ensures { result ≡ destination_wait_answer_of event.kind event }
{
    match event.kind {
        Kind::Rel => Some(Row::Released),
        Kind::Tells if event.told.answers => Some(Row::UnconditionalConnected),
        Kind::Tells if event.told.clears => Some(Row::ClearedHere),
        Kind::Passes => Some(Row::TimeInSetup),
        _ => None,
    }
}

// destination, ANSWERED, IDLE.
fn destination_answered_idle(event: Cue) -> Option<Row>
    ensures { result ≡ destination_answered_idle_of event.kind event }
{
    match event.kind {
        Kind::Asks if event.asked.caseb => Some(Row::AskPartial),
        Kind::Asks if event.asked.casec => Some(Row::AskEntire),
        Kind::Rel => Some(Row::Released),
        Kind::Fac if event.heard.invokeactive => Some(Row::ActiveAsked),
        Kind::Tells if event.told.clears => Some(Row::ClearedHere),
        Kind::Passes => Some(Row::TimeCounts),
        _ => None,
    }
}

// destination, ANSWERED, WAIT-ACTIVE-CONF.
fn wait_active_conf(event: Cue) -> Option<Row>
    ensures { result ≡ wait_active_conf_of event.kind event }
{
    match event.kind {
        Kind::Asks if event.asked.reversal => Some(Row::RunningHere),
        Kind::Rel => Some(Row::Released),
        Kind::Fac if event.heard.invoke => Some(Row::RunningThere),
        Kind::Tells if event.told.accepts => Some(Row::ActiveConfirmed),
        Kind::Tells if event.told.refuses => Some(Row::ActiveRefused),
        Kind::Tells if event.told.rejects => Some(Row::ActiveRejected),
        Kind::Tells if event.told.clears => Some(Row::ActiveCleared),
        Kind::Expires => Some(Row::ActiveIgnored),
        Kind::Passes => Some(Row::TimeCounts),
        _ => None,
    }
}

// destination, ANSWERED, WAIT-CALLED.
fn answered_wait_called(event: Cue) -> Option<Row>
    ensures { result ≡ answered_wait_called_of event.kind event }
{
    match event.kind {
        Kind::Asks if event.asked.reversal => Some(Row::RunningHere), // cases B and C: the wait goes on
        Kind::Rel => Some(Row::WaitReleased),
        Kind::Fac if event.heard.invoke => Some(Row::RunningThere),
        Kind::Fac if event.heard.resultcalled => Some(Row::CalledAccepted),
        Kind::Fac if event.heard.failure => Some(Row::WaitError),
        Kind::Fac if event.heard.rejection => Some(Row::WaitFailed),
        Kind::Tells if event.told.clears => Some(Row::ClearedHere),
        Kind::Expires => Some(Row::WaitFailed),
        Kind::Passes => Some(Row::TimeCounts),
        _ => None,
    }
}

// the row that a role has for an event in a phase and REV state.
pub(crate) fn row_for(role: Role, phase: Phase, rev: RevState, event: Cue) -> Option<Row>
    ensures { result ≡ row_for_of role phase rev event }
{
    match (role, phase, rev) {
        (_, Phase::Unopened | Phase::Cleared, _) => vacant(event),
        (Role::Originating, Phase::Null, _) => originating_null(event),
        (Role::Originating, Phase::Setup, RevState::Idle) => originating_setup_idle(event),
        (Role::Originating, Phase::Setup, RevState::WaitSetup) => wait_setup(event),
        (Role::Originating, Phase::Setup, RevState::WaitAnswer) => originating_wait_answer(event),
        (Role::Originating, Phase::Answered, RevState::Idle) => originating_answered_idle(event),
        (Role::Originating, Phase::Answered, RevState::WaitActive) => wait_active(event),
        (_, Phase::Answered, RevState::Active) => active(event),
        (Role::Destination, Phase::Null, _) => destination_null(event),
        (Role::Destination, Phase::Setup, RevState::Idle) => destination_setup_idle(event),
        (Role::Destination, Phase::Setup, RevState::WaitSetupConf) => wait_setup_conf(event),
        (Role::Destination, Phase::Setup, RevState::WaitCalled) => setup_wait_called(event),
        (Role::Destination, Phase::Setup, RevState::WaitAnswer) => destination_wait_answer(event),
        (Role::Destination, Phase::Answered, RevState::Idle) => destination_answered_idle(event),
        (Role::Destination, Phase::Answered, RevState::WaitActiveConf) => wait_active_conf(event),
        (Role::Destination, Phase::Answered, RevState::WaitCalled) => answered_wait_called(event),
        _ => None,
    }
}
