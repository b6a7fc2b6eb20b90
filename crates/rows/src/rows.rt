// PLAN: what each row does, in the order of its sentence. A row sees only the terms that it names, and never the call.
ghost use Rattle.std.specs.Prelude.{◌≡◌};
ghost use Rattle.rows.specs.Rows.{needs, quiet, access_error, far_error, stops, access_release, far_release, basic_request, basic_answer};
ghost use Rattle.rows.specs.Rows.{answered_here, ask_setup, unconditional_asked, accepted_at_answer, setup_error, ask_active, called_asked};
ghost use Rattle.rows.specs.Rows.{accepted_in_call, wait_error, unconditional_failed, plain_iam, setup_asked, setup_confirmed};
ghost use Rattle.rows.specs.Rows.{setup_refused, unconditional_accepted, unconditional_connected, active_asked, ask_called};
ghost use Rattle.rows.specs.Rows.{active_confirmed, active_refused, called_accepted, plan_of};

use crate::Act::{
    AccessAsk, AccessError, AccessRel, AccessSetup, ChargeCalled, ChargeCalling, Nothing,
    NotifyAccepted, SendAnm, SendFac, SendIam, SendRel, Stop,
};
// In this file Error and Result are a message's components.
use crate::Component::{Absent, Error, Invoke, Result};
use crate::Correctness::{Correct, Incorrect};
use crate::Extent::{Entire, Rest};
use crate::Interaction::{Allowed, NotAllowed};
use crate::Judged::{InteractionNotAllowed, NotSubscribed, Passed};
use crate::Mode::{NoTransfer, Transfer};
use crate::Next::{
    Stay, ToActive, ToAnswered, ToCleared, ToNull, ToSetup, ToSetupWaitCalled, ToWaitActive,
    ToWaitActiveConf, ToWaitActiveConfTransfer, ToWaitAnswer, ToWaitAnswerTransfer,
    ToWaitCalledEntire, ToWaitCalledRest, ToWaitSetup, ToWaitSetupConf, ToWaitSetupConfTransfer,
};
use crate::Register::{AsHeld, CalledNumber, CallingNumber, FromOpening};
use crate::Service::{OnRequest, Unconditional};
use crate::numbers::{
    AGREED, AGREED_CALLING, AGREED_CALLING_DURATION, ALREADY_RUNNING, APPLIED, BARE,
    BASIC_SERVICE_NOT_PROVIDED, CALLED_REQUEST, CALLING_REQ_ACTIVE, CALLING_REQ_SETUP,
    FACILITY_REJECTED, INTERACTION_NOT_ALLOWED, NORMAL_CLEARING, NOT_AVAILABLE, OWN_CALLED,
    PART_ABSENT, PARTIAL_CALLED, TIMER_EXPIRY, TRANSFER, TRANSFER_CALLING, TRANSFER_PARTIAL,
    USER_IGNORED, USER_NOT_SUBSCRIBED,
};
use crate::{
    Act, Component, Correctness, Extent, Interaction, Judged, Mode, Next, Plan, Register, Row,
    Service, Terms,
};
use meters::Change;
use meters::Change::{
    Begin, CalledPays, CallerPays, DurationReceived, EntireToCalled, EntireToFar, FarPays, Keep,
    NobodyPays, TimePasses,
};

// ---- The shapes of a plan.

// A row that answers nothing and leaves the call as it is. What a row does besides is named in its plan.
const NOTHING_DONE: Plan = Plan {
    number: APPLIED,
    next: Stay,
    change: Keep,
    register: AsHeld,
    first: Nothing,
    second: Nothing,
    third: Nothing,
    fourth: Nothing,
    component: Absent(0),
    parts: BARE,
    error: 0,
    cause: 0,
};

// The call clears.
const CLEARING: Plan = Plan {
    next: ToCleared,
    change: NobodyPays,
    ..NOTHING_DONE
};

// 01, number 4: a part that the row needs is there, or not.
fn needs(there: bool, plan: Plan) -> Plan
    ensures { result ≡ needs there plan }
{
    if there {
        plan
    } else {
        Plan {
            number: PART_ABSENT,
            ..NOTHING_DONE
        }
    }
}

// No action.
fn quiet(next: Next, change: Change, register: Register) -> Plan
    ensures { result ≡ quiet next change register }
{
    Plan {
        next,
        change,
        register,
        ..NOTHING_DONE
    }
}

// An error to the own access; the call goes on.
fn access_error(next: Next, error: u8) -> Plan
    ensures { result ≡ access_error next error }
{
    Plan {
        next,
        first: AccessError,
        error,
        ..NOTHING_DONE
    }
}

// An error to the other exchange; the call goes on.
fn far_error(next: Next, error: u8) -> Plan
    ensures { result ≡ far_error next error }
{
    Plan {
        next,
        first: SendFac,
        component: Error(error),
        ..NOTHING_DONE
    }
}

// Stop, if a meter is charged here, then a release; the call clears.
fn stops(by: Act, component: Component, cause: u8) -> Plan
    ensures { result ≡ stops by component cause }
{
    Plan {
        first: Stop,
        second: by,
        component,
        cause,
        ..CLEARING
    }
}

// An error and its cause to the own access, and what follows; the call clears.
fn access_release(last: Act, error: u8, cause: u8) -> Plan
    ensures { result ≡ access_release last error cause }
{
    Plan {
        first: AccessError,
        second: AccessRel,
        third: last,
        error,
        cause,
        ..CLEARING
    }
}

// A release with an error to the other exchange; the call clears.
fn far_release(error: u8, cause: u8) -> Plan
    ensures { result ≡ far_release error cause }
{
    Plan {
        first: SendRel,
        component: Error(error),
        cause,
        ..CLEARING
    }
}

// ---- The rows that need more than a word.

// O1: 01, "request 0 gives IAM".
fn basic_request() -> Plan
    ensures { result ≡ basic_request }
{
    Plan {
        next: ToSetup,
        register: CalledNumber,
        first: SendIam,
        ..NOTHING_DONE
    }
}

// O5: 01, "A basic answer at the originating exchange gives CHARGE CALLING".
fn basic_answer() -> Plan
    ensures { result ≡ basic_answer }
{
    Plan {
        next: ToAnswered,
        change: CallerPays,
        first: ChargeCalling,
        ..NOTHING_DONE
    }
}

// D9: 01, "answer without REV gives ANM".
fn answered_here() -> Plan
    ensures { result ≡ answered_here }
{
    Plan {
        next: ToAnswered,
        change: FarPays,
        first: SendAnm,
        ..NOTHING_DONE
    }
}

// D2, D20, D21: 3.5.2.5.5.2, first sentence; i, ii.
fn unconditional_failed() -> Plan
    ensures { result ≡ unconditional_failed }
{
    Plan {
        first: SendRel,
        cause: FACILITY_REJECTED,
        ..CLEARING
    }
}

// ---- The rows that choose. What they look at comes in one order: what was judged, how much of the call, transfer or not, which
// needed parts are there.

// Case A asked for: 3.5.2.1.1.1 i, ii; 3.5.2.1.1.2, first sentence.
fn ask_setup(interaction: Interaction, mode: Mode) -> Plan
    ensures { result ≡ ask_setup interaction mode }
{
    match (interaction, mode) {
        // O2
        (NotAllowed, _) => access_release(Nothing, INTERACTION_NOT_ALLOWED, FACILITY_REJECTED),
        // O3
        (Allowed, NoTransfer) => Plan {
            next: ToWaitSetup,
            register: CalledNumber,
            first: SendIam,
            component: Invoke(CALLING_REQ_SETUP),
            ..NOTHING_DONE
        },
        // O4
        (Allowed, Transfer) => Plan {
            next: ToWaitSetup,
            register: CalledNumber,
            first: SendIam,
            component: Invoke(CALLING_REQ_SETUP),
            parts: TRANSFER_CALLING,
            ..NOTHING_DONE
        },
    }
}

// Case D asked for by the called user: 3.5.2.5.1.1 i, ii, up to the answer; 3.5.2.5.1.2, first sentence.
fn unconditional_asked(interaction: Interaction, mode: Mode, called: bool) -> Plan
    ensures { result ≡ unconditional_asked interaction mode called }
{
    match (interaction, mode) {
        // O6
        (NotAllowed, _) => far_error(Stay, INTERACTION_NOT_ALLOWED),
        // O7: charging starts at the answer
        (Allowed, NoTransfer) => needs(
            called,
            Plan {
                next: ToWaitAnswer,
                register: CalledNumber,
                first: SendFac,
                component: Result(CALLED_REQUEST),
                ..NOTHING_DONE
            },
        ),
        // O8
        (Allowed, Transfer) => Plan {
            next: ToWaitAnswerTransfer,
            first: SendFac,
            component: Result(CALLED_REQUEST),
            parts: AGREED_CALLING,
            ..NOTHING_DONE
        },
    }
}

// Cases A and D take effect with the answer: 3.5.2.1.1.1 a, b; 3.5.2.5.1.1 i, ii, from the answer.
fn accepted_at_answer(mode: Mode) -> Plan
    ensures { result ≡ accepted_at_answer mode }
{
    match mode {
        // O9, O16
        NoTransfer => Plan {
            next: ToActive,
            change: CalledPays,
            first: NotifyAccepted,
            second: ChargeCalled,
            ..NOTHING_DONE
        },
        // O10, O17
        Transfer => Plan {
            next: ToActive,
            change: FarPays,
            first: NotifyAccepted,
            ..NOTHING_DONE
        },
    }
}

// 3.5.2.1.1.2 i: the same error and cause, or Not Available and 29.
fn setup_error(correct: Correctness, error: u8, cause: u8) -> Plan
    ensures { result ≡ setup_error correct error cause }
{
    match correct {
        // O11
        Correct => access_release(Nothing, error, cause),
        // O12
        Incorrect => access_release(Nothing, NOT_AVAILABLE, FACILITY_REJECTED),
    }
}

// Case B asked for: 3.5.2.2.1.1 i, ii; 3.5.2.2.1.2, first sentence.
fn ask_active(interaction: Interaction, mode: Mode) -> Plan
    ensures { result ≡ ask_active interaction mode }
{
    match (interaction, mode) {
        // O20
        (NotAllowed, _) => access_error(Stay, INTERACTION_NOT_ALLOWED),
        // O21
        (Allowed, NoTransfer) => Plan {
            next: ToWaitActive,
            first: SendFac,
            component: Invoke(CALLING_REQ_ACTIVE),
            ..NOTHING_DONE
        },
        // O22
        (Allowed, Transfer) => Plan {
            next: ToWaitActive,
            first: SendFac,
            component: Invoke(CALLING_REQ_ACTIVE),
            parts: TRANSFER_CALLING,
            ..NOTHING_DONE
        },
    }
}

// Case B or C asked for by the called user: 3.5.2.3.1.1 and 3.5.2.4.1.1 i, ii; 3.5.2.3.1.2 and 3.5.2.4.1.2, first sentence.
fn called_asked(interaction: Interaction, extent: Extent, mode: Mode, called: bool) -> Plan
    ensures { result ≡ called_asked interaction extent mode called }
{
    match (interaction, extent, mode) {
        // O23
        (NotAllowed, _, _) => far_error(Stay, INTERACTION_NOT_ALLOWED),
        // O24
        (Allowed, Rest, NoTransfer) => needs(
            called,
            Plan {
                next: ToActive,
                change: CalledPays,
                register: CalledNumber,
                first: SendFac,
                second: NotifyAccepted,
                third: Stop,
                fourth: ChargeCalled,
                component: Result(CALLED_REQUEST),
                ..NOTHING_DONE
            },
        ),
        // O25
        (Allowed, Rest, Transfer) => Plan {
            next: ToActive,
            change: FarPays,
            first: SendFac,
            second: NotifyAccepted,
            third: Stop,
            component: Result(CALLED_REQUEST),
            parts: AGREED_CALLING,
            ..NOTHING_DONE
        },
        // O26
        (Allowed, Entire, NoTransfer) => needs(
            called,
            Plan {
                next: ToActive,
                change: EntireToCalled,
                register: CalledNumber,
                first: SendFac,
                second: NotifyAccepted,
                third: Stop,
                fourth: ChargeCalled,
                component: Result(CALLED_REQUEST),
                ..NOTHING_DONE
            },
        ),
        // O27
        (Allowed, Entire, Transfer) => Plan {
            next: ToActive,
            change: EntireToFar,
            first: SendFac,
            second: NotifyAccepted,
            third: Stop,
            component: Result(CALLED_REQUEST),
            parts: AGREED_CALLING_DURATION,
            ..NOTHING_DONE
        },
    }
}

// Case B takes effect in the answered call: 3.5.2.2.1.1 a, b.
fn accepted_in_call(mode: Mode) -> Plan
    ensures { result ≡ accepted_in_call mode }
{
    match mode {
        // O28
        NoTransfer => Plan {
            next: ToActive,
            change: CalledPays,
            first: NotifyAccepted,
            second: Stop,
            third: ChargeCalled,
            ..NOTHING_DONE
        },
        // O29
        Transfer => Plan {
            next: ToActive,
            change: FarPays,
            first: NotifyAccepted,
            second: Stop,
            ..NOTHING_DONE
        },
    }
}

// 3.5.2.2.1.2 i, 3.5.2.3.5.2 a, 3.5.2.4.5.2 a: the same error, or Not Available.
fn wait_error(correct: Correctness, error: u8) -> Plan
    ensures { result ≡ wait_error correct error }
{
    match correct {
        // O30, D48
        Correct => access_error(ToAnswered, error),
        // O31, D49
        Incorrect => access_error(ToAnswered, NOT_AVAILABLE),
    }
}

// An IAM with no component, 01; case D: 3.5.2.5.5.1 i, ii; 3.5.2.5.5.2, first sentence.
fn plain_iam(service: Service, interaction: Interaction, mode: Mode) -> Plan
    ensures { result ≡ plain_iam service interaction mode }
{
    match (service, interaction, mode) {
        // D1
        (OnRequest, _, _) => Plan {
            next: ToSetup,
            first: AccessSetup,
            ..NOTHING_DONE
        },
        // D2
        (Unconditional, NotAllowed, _) => unconditional_failed(),
        // D3
        (Unconditional, Allowed, NoTransfer) => Plan {
            next: ToSetupWaitCalled,
            first: SendFac,
            component: Invoke(CALLED_REQUEST),
            parts: OWN_CALLED,
            ..NOTHING_DONE
        },
        // D4
        (Unconditional, Allowed, Transfer) => Plan {
            next: ToSetupWaitCalled,
            first: SendFac,
            component: Invoke(CALLED_REQUEST),
            parts: TRANSFER,
            ..NOTHING_DONE
        },
    }
}

// Case A asked for by the caller: 3.5.2.1.5.1 i, ii, iii; 3.5.2.1.5.2, sentences 1 to 6.
fn setup_asked(judged: Judged, mode: Mode, calling: bool) -> Plan
    ensures { result ≡ setup_asked judged mode calling }
{
    match (judged, mode) {
        // D5
        (NotSubscribed, _) => far_release(USER_NOT_SUBSCRIBED, FACILITY_REJECTED),
        // D6
        (InteractionNotAllowed, _) => far_release(INTERACTION_NOT_ALLOWED, FACILITY_REJECTED),
        // D7
        (Passed, NoTransfer) => Plan {
            next: ToWaitSetupConf,
            first: AccessAsk,
            ..NOTHING_DONE
        },
        // D8
        (Passed, Transfer) => needs(
            calling,
            Plan {
                next: ToWaitSetupConfTransfer,
                register: CallingNumber,
                first: AccessAsk,
                ..NOTHING_DONE
            },
        ),
    }
}

// Case A accepted by the own user: 3.5.2.1.5.1 a, b.
fn setup_confirmed(mode: Mode) -> Plan
    ensures { result ≡ setup_confirmed mode }
{
    match mode {
        // D10
        NoTransfer => Plan {
            next: ToActive,
            change: FarPays,
            first: SendAnm,
            component: Result(CALLING_REQ_SETUP),
            parts: OWN_CALLED,
            ..NOTHING_DONE
        },
        // D11
        Transfer => Plan {
            next: ToActive,
            change: CalledPays,
            first: ChargeCalled,
            second: SendAnm,
            component: Result(CALLING_REQ_SETUP),
            parts: AGREED,
            ..NOTHING_DONE
        },
    }
}

// 3.5.2.1.5.2 i: the same error and cause (16 if none, 01), or Not Available and 29.
fn setup_refused(correct: Correctness, error: u8, cause: u8) -> Plan
    ensures { result ≡ setup_refused correct error cause }
{
    match correct {
        // D12
        Correct => far_release(error, cause),
        // D13
        Incorrect => far_release(NOT_AVAILABLE, FACILITY_REJECTED),
    }
}

// Case D accepted: 3.5.2.5.5.1, "When the state is wait for REVCalledRequest response" a, b.
fn unconditional_accepted(mode: Mode, calling: bool) -> Plan
    ensures { result ≡ unconditional_accepted mode calling }
{
    match mode {
        // D18
        NoTransfer => Plan {
            next: ToWaitAnswer,
            first: NotifyAccepted,
            ..NOTHING_DONE
        },
        // D19
        Transfer => needs(calling, quiet(ToWaitAnswerTransfer, Keep, CallingNumber)),
    }
}

// Case D takes effect with the answer: 3.5.2.5.5.1 a, b; 01, "in WAIT-ANSWER too".
fn unconditional_connected(mode: Mode) -> Plan
    ensures { result ≡ unconditional_connected mode }
{
    match mode {
        // D22
        NoTransfer => Plan {
            next: ToActive,
            change: FarPays,
            first: SendAnm,
            ..NOTHING_DONE
        },
        // D23
        Transfer => Plan {
            next: ToActive,
            change: CalledPays,
            first: ChargeCalled,
            second: SendAnm,
            ..NOTHING_DONE
        },
    }
}

// Case B asked for by the caller: 3.5.2.2.5.1 i, ii, iii; 3.5.2.2.5.2, first two sentences.
fn active_asked(judged: Judged, mode: Mode, calling: bool) -> Plan
    ensures { result ≡ active_asked judged mode calling }
{
    match (judged, mode) {
        // D26
        (NotSubscribed, _) => far_error(Stay, USER_NOT_SUBSCRIBED),
        // D27
        (InteractionNotAllowed, _) => far_error(Stay, INTERACTION_NOT_ALLOWED),
        // D28
        (Passed, NoTransfer) => Plan {
            next: ToWaitActiveConf,
            first: AccessAsk,
            ..NOTHING_DONE
        },
        // D29
        (Passed, Transfer) => needs(
            calling,
            Plan {
                next: ToWaitActiveConfTransfer,
                register: CallingNumber,
                first: AccessAsk,
                ..NOTHING_DONE
            },
        ),
    }
}

// Case B or C asked for by the own user: 3.5.2.3.5.1 and 3.5.2.4.5.1 i, ii, iii; 3.5.2.3.5.2 and 3.5.2.4.5.2 i, ii.
fn ask_called(judged: Judged, extent: Extent, mode: Mode) -> Plan
    ensures { result ≡ ask_called judged extent mode }
{
    match (judged, extent, mode) {
        // D30
        (NotSubscribed, _, _) => access_error(Stay, USER_NOT_SUBSCRIBED),
        // D31
        (InteractionNotAllowed, _, _) => access_error(Stay, INTERACTION_NOT_ALLOWED),
        // D32
        (Passed, Rest, NoTransfer) => Plan {
            next: ToWaitCalledRest,
            first: SendFac,
            component: Invoke(CALLED_REQUEST),
            parts: PARTIAL_CALLED,
            ..NOTHING_DONE
        },
        // D33
        (Passed, Rest, Transfer) => Plan {
            next: ToWaitCalledRest,
            first: SendFac,
            component: Invoke(CALLED_REQUEST),
            parts: TRANSFER_PARTIAL,
            ..NOTHING_DONE
        },
        // D34
        (Passed, Entire, NoTransfer) => Plan {
            next: ToWaitCalledEntire,
            first: SendFac,
            component: Invoke(CALLED_REQUEST),
            parts: OWN_CALLED,
            ..NOTHING_DONE
        },
        // D35
        (Passed, Entire, Transfer) => Plan {
            next: ToWaitCalledEntire,
            first: SendFac,
            component: Invoke(CALLED_REQUEST),
            parts: TRANSFER,
            ..NOTHING_DONE
        },
    }
}

// Case B accepted by the own user: 3.5.2.2.5.1 a, b.
fn active_confirmed(mode: Mode) -> Plan
    ensures { result ≡ active_confirmed mode }
{
    match mode {
        // D36
        NoTransfer => Plan {
            next: ToActive,
            first: SendFac,
            component: Result(CALLING_REQ_ACTIVE),
            parts: OWN_CALLED,
            ..NOTHING_DONE
        },
        // D37
        Transfer => Plan {
            next: ToActive,
            change: CalledPays,
            first: ChargeCalled,
            second: SendFac,
            component: Result(CALLING_REQ_ACTIVE),
            parts: AGREED,
            ..NOTHING_DONE
        },
    }
}

// 3.5.2.2.5.2 i: the same error, or Not Available.
fn active_refused(correct: Correctness, error: u8) -> Plan
    ensures { result ≡ active_refused correct error }
{
    match correct {
        // D38
        Correct => far_error(ToAnswered, error),
        // D39
        Incorrect => far_error(ToAnswered, NOT_AVAILABLE),
    }
}

// Case B or C accepted: 3.5.2.3.5.1 and 3.5.2.4.5.1 a, b.
fn called_accepted(extent: Extent, mode: Mode, calling: bool, duration: bool) -> Plan
    ensures { result ≡ called_accepted extent mode calling duration }
{
    match (extent, mode) {
        // D45
        (_, NoTransfer) => Plan {
            next: ToActive,
            first: NotifyAccepted,
            ..NOTHING_DONE
        },
        // D46
        (Rest, Transfer) => needs(
            calling,
            Plan {
                next: ToActive,
                change: CalledPays,
                register: CallingNumber,
                first: ChargeCalled,
                second: NotifyAccepted,
                ..NOTHING_DONE
            },
        ),
        // D47
        (Entire, Transfer) => needs(
            calling && duration,
            Plan {
                next: ToActive,
                change: DurationReceived,
                register: CallingNumber,
                first: ChargeCalled,
                second: NotifyAccepted,
                ..NOTHING_DONE
            },
        ),
    }
}

// What a row does.
pub(crate) fn plan_of(row: Row, t: Terms) -> Plan
    ensures { result ≡ plan_of row t }
{
    match row {
        Row::Opened => quiet(ToNull, Begin, FromOpening), // G1
        Row::TimeInSetup => quiet(Stay, Keep, AsHeld), // G2
        Row::TimeCounts => quiet(Stay, TimePasses, AsHeld), // G3
        Row::ClearedHere => stops(SendRel, Absent(0), NORMAL_CLEARING), // G4, O19, O39, D15, D25, D55
        Row::Released => stops(AccessRel, Absent(0), t.cause), // G5, O18, O40, D24, D56
        Row::RunningHere => access_error(Stay, ALREADY_RUNNING), // O35, O37, D43, D53, D57, D59
        Row::RunningThere => far_error(Stay, ALREADY_RUNNING), // O36, O38, D44, D54, D58, D60
        Row::BasicRequest => basic_request(), // O1
        Row::AskSetup => ask_setup(t.interaction, t.mode), // O2 to O4
        Row::BasicAnswer => basic_answer(), // O5
        Row::UnconditionalAsked => unconditional_asked(t.interaction, t.taken, t.called), // O6 to O8
        Row::SetupAccepted => accepted_at_answer(t.accepted), // O9, O10
        Row::SetupError => setup_error(t.correct, t.error, t.cause), // O11, O12
        Row::SetupReleased => access_release(Nothing, NOT_AVAILABLE, FACILITY_REJECTED), // O13
        Row::SetupFailed => access_release(SendRel, NOT_AVAILABLE, FACILITY_REJECTED), // O14, O15
        Row::UnconditionalAnswered => accepted_at_answer(t.agreed), // O16, O17
        Row::AskActive => ask_active(t.interaction, t.mode), // O20 to O22
        Row::CalledAsked => called_asked(t.interaction, t.extent, t.taken, t.called), // O23 to O27
        Row::ActiveAccepted => accepted_in_call(t.accepted), // O28, O29
        Row::WaitError => wait_error(t.correct, t.error), // O30, O31, D48, D49
        Row::WaitFailed => access_error(ToAnswered, NOT_AVAILABLE), // O32, O33, D50, D51
        Row::WaitReleased => access_release(Stop, BASIC_SERVICE_NOT_PROVIDED, t.cause), // O34, D52
        Row::PlainIam => plain_iam(t.service, t.interaction, t.mode), // D1 to D4
        Row::SetupAsked => setup_asked(t.judged, t.taken, t.calling), // D5 to D8
        Row::AnsweredHere => answered_here(), // D9
        Row::SetupConfirmed => setup_confirmed(t.agreed), // D10, D11
        Row::SetupRefused => setup_refused(t.correct, t.error, t.cause), // D12, D13
        Row::SetupRejected => far_release(NOT_AVAILABLE, FACILITY_REJECTED), // D14
        Row::SetupIgnored => far_release(USER_IGNORED, FACILITY_REJECTED), // D16
        Row::SetupExpired => far_release(BASIC_SERVICE_NOT_PROVIDED, TIMER_EXPIRY), // D17
        Row::UnconditionalAccepted => unconditional_accepted(t.accepted, t.calling), // D18, D19
        Row::UnconditionalFailed => unconditional_failed(), // D20, D21
        Row::UnconditionalConnected => unconditional_connected(t.agreed), // D22, D23
        Row::ActiveAsked => active_asked(t.judged, t.taken, t.calling), // D26 to D29
        Row::AskPartial => ask_called(t.judged, Rest, t.mode), // D30 to D33
        Row::AskEntire => ask_called(t.judged, Entire, t.mode), // D30, D31, D34, D35
        Row::ActiveConfirmed => active_confirmed(t.agreed), // D36, D37
        Row::ActiveRefused => active_refused(t.correct, t.error), // D38, D39
        Row::ActiveRejected => far_error(ToAnswered, NOT_AVAILABLE), // D40
        Row::ActiveIgnored => far_error(ToAnswered, USER_IGNORED), // D41
        Row::ActiveCleared => stops(SendRel, Error(BASIC_SERVICE_NOT_PROVIDED), NORMAL_CLEARING), // D42
        Row::CalledAccepted => called_accepted(t.asked, t.accepted, t.calling, t.duration), // D45 to D47
    }
}
