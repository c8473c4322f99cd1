// A cleared plan.
ghost use Rattle.std.specs.Prelude.{◌≡◌};
ghost use Rattle.model.specs.Rules.{Cleared};
ghost use Rattle.plan.specs.Plans.{records_in};
ghost use Rattle.plan.specs.Program.{program_of};

use plan::Plan;
use records::WaitOrder;
use std::marker::PhantomData;

// A plan that is cleared under a wait order. It cannot be copied: opening a live run is to use it up.
#[derive(Drop)]
pub struct Clearance<'a, O: WaitOrder> {
    plan: Plan<'a>,
    order: PhantomData<O>,
    ghost cleared: { Cleared (program_of O.WaitOrder.made (records_in plan.sheet.now)) O.WaitOrder.below },
}

impl<'a, O: WaitOrder> Clearance<'a, O> {
    // Makes the clearance of a plan. It needs that no step of the plan is illegal, which a clearing that answered Ok
    // says, and cannot refuse.
    pub fn new(plan: Plan<'a>) -> Clearance<'a, O>
        requires { Cleared (program_of O.WaitOrder.made (records_in plan.sheet.now)) O.WaitOrder.below }
        ensures { result.plan ≡ plan.entry }
    {
        Clearance {
            plan,
            order: PhantomData,
        }
    }

    // The plan that was cleared.
    pub fn plan(&self) -> &Plan<'a>
        ensures plan { result.now ≡ self.now.plan }
        ensures cleared { Cleared (program_of O.WaitOrder.made (records_in result.now.sheet.now)) O.WaitOrder.below }
    {
        &self.plan
    }
}
