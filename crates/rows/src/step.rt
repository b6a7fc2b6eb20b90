// One step of a call.
ghost use Rattle.std.specs.Prelude.{◌≡◌};
ghost use Rattle.rows.specs.Step.{unopened_call, total_of, takes_of, if_in_range, is_opening, untimely_of, refusal, step_of, free_of};
ghost use Rattle.rows.specs.Valid.{event_ok};

use crate::numbers::{BAD_FIELD, BEFORE_OPENING, NOT_A_CALL, SLOT_IN_USE};
use crate::{
    ABSENT, Call, Cue, Event, Flags, Outcome, Phase, Reading, RevState, Role, Side, Stand, find,
    read, rows, valid, why,
};
use meters::Meters;

impl Call {
    // A call before its opening.
    pub fn unopened() -> Call
        ensures { result ≡ unopened_call }
    {
        Call {
            side: Side {
                role: Role::Originating,
                flags: Flags {
                    transfer: false,
                    option: false,
                    subscribed: false,
                    interaction: false,
                    unconditional: false,
                },
                own: ABSENT,
                calling: ABSENT,
                called: ABSENT,
            },
            stand: Stand {
                phase: Phase::Unopened,
                rev: RevState::Idle,
                agreed: false,
                rest: false,
            },
            meters: Meters::new(),
        }
    }

    // The answered seconds of the call, whoever pays them: how long it has lasted since the answer, or lasted until it was cleared.
    pub fn total(self) -> u32
        ensures { result ≡ total_of self }
    {
        self.meters.total
    }

    // Find, plan, perform; where no row was found, say why.
    fn takes(self, e: Event) -> Outcome
        ensures { result ≡ takes_of self e }
    {
        let r = Reading::from(e);
        let cue = Cue::from(r);
        match find::row_for(self.side.role, self.stand.phase, self.stand.rev, cue) {
            Some(row) => {
                let terms = read::terms_of(self.side.flags, self.stand, r);
                self.perform(rows::plan_of(row, terms), r)
            }
            None => self.refused(why::why(self.side.role, self.stand.phase, cue)),
        }
    }

    // 3 with the field's ordinal, before any row is looked for.
    fn ranged(self, e: Event) -> Outcome
        ensures { result ≡ if_in_range (event_ok e) self e }
    {
        match valid::bad_field(e) {
            None => self.takes(e),
            Some(field) => self.refused_at(BAD_FIELD, field),
        }
    }

    // The answer to one event, in any state and for any event: 9, then 17 or 20, then 3, then 1, 15 or 16, then 4 and 2, or a row applied.
    pub fn step(self, e: Event) -> Outcome
        ensures { result ≡ step_of self e }
    {
        if !self.valid() {
            self.refused(NOT_A_CALL)
        } else if let Some(number) = untimely(self.stand.phase, e) {
            self.refused(number)
        } else {
            self.ranged(e)
        }
    }

    // An opening may take the slot of this call: it was never opened, or it has cleared.
    pub fn is_free(self) -> bool
        ensures { result ≡ free_of self }
    {
        self.valid() && matches!(self.stand.phase, Phase::Unopened | Phase::Cleared)
    }
}

impl Outcome {
    // The call that follows.
    pub fn after(self) -> Call
        ensures { result ≡ self.call }
    {
        self.call
    }
}

// 17 or 20, or None where the event comes in its time.
// Kept: the number itself, as `refusal` and `step_of` (Step.antt) have it and an Outcome gives it.
fn untimely(phase: Phase, e: Event) -> Option<u8>
    ensures { result ≡ refusal (untimely_of phase (is_opening e)) }
{
    match (phase, matches!(e, Event::Opening(..))) {
        (Phase::Unopened, false) => Some(BEFORE_OPENING),
        (Phase::Null | Phase::Setup | Phase::Answered, true) => Some(SLOT_IN_USE),
        _ => None,
    }
}
