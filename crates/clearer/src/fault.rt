// Why a plan is not cleared.
ghost use Rattle.std.specs.Prelude.{◌≡◌};
ghost use Rattle.rules.specs.Offences.{rule_number};
ghost use Rattle.clearer.specs.Faults.{layer_of};

use records::Layer;
use rules::Rule;

// The first illegal step of the plan: the rule that it breaks, its line, and the object that is named.
#[derive(Clone, Copy)]
pub struct ClearFault {
    pub rule: Rule,
    pub line: usize,
    pub object: usize,
}

impl ClearFault {
    // The number of the fault, 21 to 26.
    pub fn number(self) -> u8
        ensures { result ≡ rule_number self.rule }
    {
        self.rule.number()
    }

    // The layer that refuses.
    pub fn layer(self) -> Layer
        ensures { result ≡ layer_of self }
    {
        Layer::Clearing
    }
}
