// The rules that a step can break.
ghost use Rattle.std.specs.Prelude.{◌≡◌};
ghost use Rattle.rules.specs.Offences.{rule_number};

#[derive(Clone, Copy)]
pub enum Rule {
    // a receive without a credit of its channel
    NoCredit = 21,
    // a receive while an object is owed or held whose level is not below that of the channel
    ReceiveBarred = 22,
    // an acquire while an object is owed or held whose level is not below that of the lock
    AcquireBarred = 23,
    // a release of a lock that is not held
    NotHeld = 24,
    // a closing while a channel is owed
    Owing = 25,
    // a closing while a lock is held
    Holding = 26,
}

// The rule that a step breaks, and the object that is named: of a receive without a credit and of a release the step's
// own, else the first declared one that breaks the rule.
#[derive(Clone, Copy)]
pub struct Offence {
    pub rule: Rule,
    pub object: usize,
}

impl Rule {
    // The number of the fault, 21 to 26.
    pub fn number(self) -> u8
        ensures { result ≡ rule_number self }
    {
        self as u8
    }
}
