// The reverse charging (REV) behaviour of one call at one exchange, ITU-T Q.736 clause 3, with the house rows of documents 01
// and 02.
//
//     Event --read--> Reading --cue--> Cue --find--> Row --plan--> Plan --perform--> Outcome
//
// Finding a row never sees the call, a row's plan is data, and only performing it touches the call: so a row changes in one
// line, a number behind one name, and the call in one place. This file has the kinds that all of these share.
#![tactic(auto)]

mod find;
mod numbers;
mod perform;
mod read;
mod rows;
mod step;
mod telephone;
mod valid;
mod why;

use meters::{Change, Meters};
pub use numbers::APPLIED;
pub use telephone::same_number;
pub use valid::{access_bad, ask_bad, in_range, message_bad, opening_bad, time_bad};

#[derive(Clone, Copy)]
pub enum Role {
    Originating,
    Destination,
}

// Unopened is 01's NONE: a call before its opening is a value too.
#[derive(Clone, Copy)]
pub enum Phase {
    Unopened,
    Null,
    Setup,
    Answered,
    Cleared,
}

#[derive(Clone, Copy)]
pub enum RevState {
    Idle,
    WaitSetup,
    WaitActive,
    WaitAnswer,
    Active,
    WaitSetupConf,
    WaitActiveConf,
    WaitCalled,
}

// 02 #103: "A number now also states its nature, national or international".
#[derive(Clone, Copy, PartialEq, Eq)]
pub enum Nature {
    National,
    International,
}

// A telephone number: its nature, the count of its digits, and its value. Two with the same digits, one at home and one abroad, are
// two numbers.
#[derive(Clone, Copy, PartialEq, Eq)]
pub struct Number {
    pub nature: Nature,
    pub count: u8,
    pub value: u64,
}

// No number.
pub const ABSENT: Number = Number {
    nature: Nature::National,
    count: 0,
    value: 0,
};

// A message's component, by 01's code: 0 to 4, with the byte that follows (operation or error number, else 0).
// Kept: the byte after each code, since a record may have any there: `item_ok` judges it, and `three_exactly` has the answer 3.
#[derive(Clone, Copy)]
pub enum Component {
    Absent(u8),
    Invoke(u8),
    Result(u8),
    Error(u8),
    Reject(u8),
    Unknown(u8, u8),
}

// A message received. A number or Duration that its parts do not name is absent, or 0.
// Kept: raw numbers, here and in Event, since a record whose number is out of its range is an event too: `three_exactly` answers it 3.
#[derive(Clone, Copy)]
pub struct Message {
    pub kind: u8,
    pub cause: u8,
    pub component: Component,
    pub parts: u8,
    pub calling: Number,
    pub called: Number,
    pub duration: u32,
}

// What the actions of an answer carry. error: told to the own access. cause: of a release, to the own access or in a REL. The rest is
// the message's. No row sends two messages, tells two errors or gives two causes, so one note serves.
// Kept: error, cause and parts as numbers with 0 for none, as `note_of` (Perform.antt) has them of a Plan.
#[derive(Clone, Copy)]
pub struct Note {
    pub error: u8,
    pub cause: u8,
    pub component: Component,
    pub parts: u8,
    pub calling: Number,
    pub called: Number,
    pub duration: u32,
}

// One case for each kind of record. The fields are the numbers that the record carries, so that every well-framed record
// has its event; where one is out of its range the call answers 3.
#[derive(Clone, Copy)]
pub enum Event {
    Opening(u8, u8, Number),
    Ask(u8, Number),
    Received(Message),
    FromAccess(u8, u8),
    Expiry,
    Time(u32),
}

// What an event says, in one form for all kinds.
#[derive(Clone, Copy)]
pub struct Reading {
    pub kind: Kind,
    // the role of an opening, what the own user asks, what the access tells
    // Kept: a record's numbers, as Event has them and as `read_of`, `asked_of` and `told_of` (Read.antt) take them.
    pub item: u8,
    pub flags: u8,
    pub component: Component,
    pub parts: u8,
    pub error: u8,
    pub cause: u8,
    // seconds that passed, or the Duration received
    pub seconds: u32,
    pub own: Number,
    pub calling: Number,
    pub called: Number,
}

// What an event is to the tables that find its row.
#[derive(Clone, Copy)]
pub struct Cue {
    pub kind: Kind,
    pub asked: Asked,
    pub heard: Heard,
    pub told: Told,
}

// Answer: ANM or CON, which no row tells apart.
#[derive(Clone, Copy)]
pub enum Kind {
    Opens,
    Asks,
    Iam,
    Answer,
    Rel,
    Fac,
    Tells,
    Expires,
    Passes,
}

// What the own user asks for: a basic call, or reverse charging by case A, B or C.
// Kept: here, in Heard and in Told a bool for each test, which the tables of Find.antt and `asked_of`, `heard_of`, `told_of` ask by name.
#[derive(Clone, Copy)]
pub struct Asked {
    pub basic: bool,
    pub casea: bool,
    pub caseb: bool,
    pub casec: bool,
    pub reversal: bool,
}

// What a message's component is. invoke: with any operation.
#[derive(Clone, Copy)]
pub struct Heard {
    pub alone: bool,
    pub invoke: bool,
    pub invokesetup: bool,
    pub invokeactive: bool,
    pub invokecalled: bool,
    pub resultsetup: bool,
    pub resultactive: bool,
    pub resultcalled: bool,
    pub failure: bool,
    pub rejection: bool,
}

// What the own access tells. answers: without REV.
#[derive(Clone, Copy)]
pub struct Told {
    pub accepts: bool,
    pub refuses: bool,
    pub rejects: bool,
    pub clears: bool,
    pub answers: bool,
}

// A row of the clause, or the rows of one sentence that differ by flags, transfer or an error number alone.
// The names O1 .. O40, D1 .. D60 and G1 .. G5 are those of docs/ROWS.md.
#[derive(Clone, Copy)]
pub enum Row {
    // G1
    Opened,
    // G2
    TimeInSetup,
    // G3
    TimeCounts,
    // G4, O19, O39, D15, D25, D55
    ClearedHere,
    // G5, O18, O40, D24, D56
    Released,
    // O35, O37, D43, D53, D57, D59
    RunningHere,
    // O36, O38, D44, D54, D58, D60
    RunningThere,
    // O1
    BasicRequest,
    // O2, O3, O4
    AskSetup,
    // O5
    BasicAnswer,
    // O6, O7, O8
    UnconditionalAsked,
    // O9, O10
    SetupAccepted,
    // O11, O12
    SetupError,
    // O13
    SetupReleased,
    // O14, O15
    SetupFailed,
    // O16, O17
    UnconditionalAnswered,
    // O20, O21, O22
    AskActive,
    // O23 to O27
    CalledAsked,
    // O28, O29
    ActiveAccepted,
    // O30, O31, D48, D49
    WaitError,
    // O32, O33, D50, D51
    WaitFailed,
    // O34, D52
    WaitReleased,
    // D1 to D4
    PlainIam,
    // D5 to D8
    SetupAsked,
    // D9
    AnsweredHere,
    // D10, D11
    SetupConfirmed,
    // D12, D13
    SetupRefused,
    // D14
    SetupRejected,
    // D16
    SetupIgnored,
    // D17
    SetupExpired,
    // D18, D19
    UnconditionalAccepted,
    // D20, D21
    UnconditionalFailed,
    // D22, D23
    UnconditionalConnected,
    // D26 to D29
    ActiveAsked,
    // D30 to D33
    AskPartial,
    // D30, D31, D34, D35
    AskEntire,
    // D36, D37
    ActiveConfirmed,
    // D38, D39
    ActiveRefused,
    // D40
    ActiveRejected,
    // D41
    ActiveIgnored,
    // D42
    ActiveCleared,
    // D45, D46, D47
    CalledAccepted,
}

// Whether another service of the own user allows REV (3.6).
#[derive(Clone, Copy)]
pub enum Interaction {
    Allowed,
    NotAllowed,
}

// What the checks of a request say, in their order: the subscription, under its option; interaction.
#[derive(Clone, Copy)]
pub enum Judged {
    Passed,
    NotSubscribed,
    InteractionNotAllowed,
}

// Transfer mode: the destination exchange charges.
#[derive(Clone, Copy)]
pub enum Mode {
    NoTransfer,
    Transfer,
}

// How much of an answered call: the rest of it, case B; the entire call, case C.
#[derive(Clone, Copy)]
pub enum Extent {
    Rest,
    Entire,
}

// REV when it is asked for; or for every call, case D.
#[derive(Clone, Copy)]
pub enum Service {
    OnRequest,
    Unconditional,
}

// 001: "this return error value is correct for REV", or not.
#[derive(Clone, Copy)]
pub enum Correctness {
    Correct,
    Incorrect,
}

// What a row may look at besides its state: flags, parts, what is pending, an error.
#[derive(Clone, Copy)]
pub struct Terms {
    // the flags: interaction; subscription, under its option, and then interaction; transfer mode; case D
    pub interaction: Interaction,
    pub judged: Judged,
    pub mode: Mode,
    pub service: Service,
    // an invoke asks for transfer, and it is taken here
    pub taken: Mode,
    // a result accepts the transfer that was asked for here
    pub accepted: Mode,
    // an invoke is for a part of the call alone, or not
    pub extent: Extent,
    // pending: transfer was agreed; what was asked for
    pub agreed: Mode,
    pub asked: Extent,
    // parts that are there: the called number, or transfer requested in its place; the calling number; the Duration
    pub called: bool,
    pub calling: bool,
    pub duration: bool,
    // the error received, and whether it is REV's; the cause received
    // Kept: `correct` beside `error`, as `setup_error` and `wait_error` of Rows.antt take them; so do `setup_refused` and `active_refused`.
    pub correct: Correctness,
    pub error: u8,
    pub cause: u8,
}

// What a row does. number: 0, or the refusal.
// Kept: the number, which `perform_of` reads; only eight plans may lack a part (`needs`): the others would stand in a Some.
// Kept: the four acts have the form that they have in an Outcome, and the definition `given_of` copies them into it.
#[derive(Clone, Copy)]
pub struct Plan {
    pub number: u8,
    pub next: Next,
    pub change: Change,
    pub register: Register,
    pub first: Act,
    pub second: Act,
    pub third: Act,
    pub fourth: Act,
    // of the message sent, if one is
    pub component: Component,
    pub parts: u8,
    // of the error and the release, if any
    pub error: u8,
    pub cause: u8,
}

// Where the call stands next. A wait that has agreed on transfer, or asked for the rest or for the entire call, remembers it.
#[derive(Clone, Copy)]
pub enum Next {
    Stay,
    ToNull,
    ToSetup,
    ToWaitSetup,
    ToWaitAnswer,
    ToWaitAnswerTransfer,
    ToWaitSetupConf,
    ToWaitSetupConfTransfer,
    ToSetupWaitCalled,
    ToAnswered,
    ToWaitActive,
    ToWaitActiveConf,
    ToWaitActiveConfTransfer,
    ToWaitCalledRest,
    ToWaitCalledEntire,
    ToActive,
    ToCleared,
}

// What is registered for charging.
#[derive(Clone, Copy)]
pub enum Register {
    AsHeld,
    FromOpening,
    CalledNumber,
    CallingNumber,
}

// An action. In a plan, Stop is given only if a payer charged at this exchange changes.
#[derive(Clone, Copy)]
pub enum Act {
    Nothing,
    NotifyAccepted,
    AccessSetup,
    AccessAsk,
    AccessError,
    AccessRel,
    ChargeCalling,
    ChargeCalled,
    Stop,
    SendIam,
    SendAnm,
    SendRel,
    SendFac,
}

#[derive(Clone, Copy)]
pub struct Flags {
    pub transfer: bool,
    pub option: bool,
    pub subscribed: bool,
    pub interaction: bool,
    pub unconditional: bool,
}

// Which exchange this is, and whose numbers it holds.
#[derive(Clone, Copy)]
pub struct Side {
    pub role: Role,
    pub flags: Flags,
    pub own: Number,
    pub calling: Number,
    pub called: Number,
}

// Where the call stands. Pending in a wait: transfer was agreed; the rest of the call alone was asked for.
#[derive(Clone, Copy)]
pub struct Stand {
    pub phase: Phase,
    pub rev: RevState,
    pub agreed: bool,
    pub rest: bool,
}

// One call at one exchange.
#[derive(Clone, Copy)]
pub struct Call {
    pub side: Side,
    pub stand: Stand,
    pub meters: Meters,
}

// The answer to an event. The actions stand in order, and the note has what they carry; Nothing among them is none, and a host
// skips it. A refusal has the call as it stood and no action. Where the number is 3, field is the ordinal of the event's first field that is
// out of its range, from 1 as they stand in a record's body; else it is 0.
// Kept: the numbers are those that document 01 gives back, and theorems speak of them (`three_tells`, `nine_exactly`, `else_no_field`).
// Kept: four fields for the acts, since `NothingDone`, `AsFresh` and `deeds_of` (Promises.antt, Step.antt) name each.
#[derive(Clone, Copy)]
pub struct Outcome {
    pub number: u8,
    pub field: u8,
    pub call: Call,
    pub note: Note,
    pub first: Act,
    pub second: Act,
    pub third: Act,
    pub fourth: Act,
}
