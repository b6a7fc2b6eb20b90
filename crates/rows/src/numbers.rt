// The numbers of the papers, each behind one name. specs/Numbers.antt has the same numbers; here the parts stand added up as they are
// sent.
// Kept: numbers, here and where a function answers one: records carry them, hosts are given them back (`three_exactly`, `never_given`).

ghost use Rattle.std.specs.Prelude.{◌≡◌, ◌<◌};
ghost use Rattle.rows.specs.Read.{bit};

// 01, numbers given back: a row applied, or why not.
pub const APPLIED: u8 = 0;

// No row in this role at any time.
pub const NO_ROW: u8 = 1;

pub const TOO_MUCH: u8 = 2;

pub const BAD_FIELD: u8 = 3;

pub const PART_ABSENT: u8 = 4;

pub const NOT_A_CALL: u8 = 9;

// 02 #106 and #107: why there was no row, and what is judged before the fields.
pub const WRONG_PHASE: u8 = 15;

pub const WRONG_STATE: u8 = 16;

pub const BEFORE_OPENING: u8 = 17;

pub const SLOT_IN_USE: u8 = 20;

// 01, kind 3: messages.
pub const IAM: u8 = 1;

pub const ANM: u8 = 2;

pub const CON: u8 = 3;

pub const REL: u8 = 4;

pub const FAC: u8 = 5;

// 001, 3.4.2: operation values.
pub const CALLING_REQ_SETUP: u8 = 1;

pub const CALLING_REQ_ACTIVE: u8 = 2;

pub const CALLED_REQUEST: u8 = 3;

// 001, 3.4.2: error values, in the module's order.
pub const USER_NOT_SUBSCRIBED: u8 = 4;

pub const REJECTED_BY_NETWORK: u8 = 5;

pub const REJECTED_BY_USER: u8 = 6;

pub const NOT_AVAILABLE: u8 = 7;

pub const INTERACTION_NOT_ALLOWED: u8 = 8;

pub const BASIC_SERVICE_NOT_PROVIDED: u8 = 9;

pub const RESOURCE_UNAVAILABLE: u8 = 10;

pub const USER_IGNORED: u8 = 11;

pub const ALREADY_RUNNING: u8 = 12;

// Q.850: cause values.
pub const NORMAL_CLEARING: u8 = 16;

pub const FACILITY_REJECTED: u8 = 29;

pub const TIMER_EXPIRY: u8 = 102;

// 01, kind 3: the numbers and the Duration that a message may carry, each named by its part.
pub const CALLING_PART: u8 = 16;

pub const CALLED_PART: u8 = 32;

pub const DURATION_PART: u8 = 64;

// 01, kind 3: the parts that a message carries. Transfer is accepted as parts 2 and 4 together.
pub const BARE: u8 = 0;

pub const TRANSFER: u8 = 1;

pub const ACCEPTED: u8 = 2;

pub const AS_TRANSFER: u8 = 4;

pub const PARTIAL: u8 = 8;

pub const AGREED: u8 = 6;

pub const OWN_CALLED: u8 = 32;

pub const TRANSFER_CALLING: u8 = 17;

pub const TRANSFER_PARTIAL: u8 = 9;

pub const PARTIAL_CALLED: u8 = 40;

pub const AGREED_CALLING: u8 = 22;

pub const AGREED_CALLING_DURATION: u8 = 86;

// 01, kind 6: a time event has at most a day.
pub const DAY: u32 = 86400;

// Whether a part is among those added up.
pub fn has(parts: u8, part: u8) -> bool
    requires { 0 < part }
    ensures { result ≡ bit part parts }
{
    parts / part % 2 == 1
}
