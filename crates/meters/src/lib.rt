// The three meters of one call, who pays now, and the answered total. All by value: a change gives back the meters that follow.
// A meter counts the seconds that somebody pays; the total counts those that passed in the answered call, whoever pays them, so that
// neither a Duration received nor a move between meters touches it. Nothing here knows of roles, messages or prices.
#![tactic(auto)]

ghost use Rattle.std.specs.Prelude.{◌≡◌};
ghost use Rattle.meters.specs.Meters.{new_of, sum_of, within_of, total_within_of, adds_up_of, paid_by_of, adds_of, give_of, entire_of, received_of};
ghost use Rattle.meters.specs.Meters.{change_of};

// 01, number 2: no sum of meters, and no Duration that a row uses, may pass this many seconds; 02 #104: nor may the total.
const LIMIT: u64 = 31536000;

// Whose meter runs.
#[derive(Clone, Copy, PartialEq, Eq)]
pub enum Payer {
    Nobody,
    Caller,
    Called,
    Far,
}

#[derive(Clone, Copy)]
pub struct Meters {
    pub caller: u32,
    pub called: u32,
    pub far: u32,
    pub payer: Payer,
    // answered seconds
    pub total: u32,
}

// What a row may do to the meters.
#[derive(Clone, Copy)]
pub enum Change {
    Keep,
    Begin,
    CallerPays,
    CalledPays,
    FarPays,
    NobodyPays,
    EntireToCalled,
    EntireToFar,
    TimePasses,
    DurationReceived,
}

impl Meters {
    // A call that has not been answered.
    pub fn new() -> Self
        ensures { result ≡ new_of }
    {
        Meters {
            caller: 0,
            called: 0,
            far: 0,
            payer: Payer::Nobody,
            total: 0,
        }
    }

    fn sum(self) -> u64
        ensures { result ≡ sum_of self }
    {
        self.caller as u64 + self.called as u64 + self.far as u64
    }

    // The sum of the meters is within the limit.
    pub fn within(self) -> bool
        ensures { result ≡ within_of self }
    {
        self.sum() <= LIMIT
    }

    // The total is within the limit.
    pub fn total_within(self) -> bool
        ensures { result ≡ total_within_of self }
    {
        self.total as u64 <= LIMIT
    }

    // The three meters add up to the total.
    pub fn adds_up(self) -> bool
        ensures { result ≡ adds_up_of self }
    {
        self.sum() == self.total as u64
    }

    // Charging starts, goes over to another payer, or stops: the seconds stay where they are.
    pub fn paid_by(self, payer: Payer) -> Self
        ensures { result ≡ paid_by_of self payer }
    {
        Meters { payer, ..self }
    }

    // Seconds onto each meter, and those that the call has lasted onto the total; None where the sum or the total would then pass the
    // limit. Only here does either grow.
    fn adds(self, caller: u32, called: u32, far: u32, lasted: u32) -> Option<Self>
        ensures { result ≡ adds_of self caller called far lasted }
    {
        let more = caller as u64 + called as u64 + far as u64;
        if self.sum() + more <= LIMIT && self.total as u64 + lasted as u64 <= LIMIT {
            Some(Meters {
                caller: self.caller + caller,
                called: self.called + called,
                far: self.far + far,
                total: self.total + lasted,
                ..self
            })
        } else {
            None
        }
    }

    // Time passes in the answered call: the payer's meter takes all of the seconds, and the total has them too. Where nobody pays neither
    // runs.
    pub fn give(self, seconds: u32) -> Option<Self>
        ensures { result ≡ give_of self seconds }
    {
        match self.payer {
            Payer::Nobody => Some(self),
            Payer::Caller => self.adds(seconds, 0, 0, seconds),
            Payer::Called => self.adds(0, seconds, 0, seconds),
            Payer::Far => self.adds(0, 0, seconds, seconds),
        }
    }

    // Case C: another payer, and the caller's meter is emptied; `called` and `far` are the seconds that those meters take. (The caller's, all
    // of them, go to one of both: `change`.)
    fn entire(self, payer: Payer, called: u32, far: u32) -> Option<Self>
        ensures { result ≡ entire_of self payer called far }
    {
        let emptied = Meters {
            caller: 0,
            payer,
            ..self
        };
        emptied.adds(0, called, far, 0)
    }

    // Case C in transfer mode, at the destination: on the meters the Duration received stands for all seconds so far. The total has this
    // exchange's own.
    pub fn received(self, duration: u32) -> Option<Self>
        ensures { result ≡ received_of self duration }
    {
        let emptied = Meters {
            called: 0,
            far: 0,
            payer: Payer::Called,
            ..self
        };
        emptied.adds(0, duration, 0, 0)
    }

    // One change, with the seconds that passed or were received; None where a limit would be passed.
    pub fn change(self, change: Change, seconds: u32) -> Option<Self>
        ensures { result ≡ change_of change self seconds }
    {
        match change {
            Change::Keep => Some(self),
            Change::Begin => Some(Meters::new()),
            Change::CallerPays => Some(self.paid_by(Payer::Caller)),
            Change::CalledPays => Some(self.paid_by(Payer::Called)),
            Change::FarPays => Some(self.paid_by(Payer::Far)),
            Change::NobodyPays => Some(self.paid_by(Payer::Nobody)),
            Change::EntireToCalled => self.entire(Payer::Called, self.caller, 0),
            Change::EntireToFar => self.entire(Payer::Far, 0, self.caller),
            Change::TimePasses => self.give(seconds),
            Change::DurationReceived => self.received(seconds),
        }
    }
}
