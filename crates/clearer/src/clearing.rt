// The clearer.
ghost use Rattle.std.specs.Prelude.{◌≡◌, ℕ, IfErr, MatchResult};
ghost use Rattle.model.specs.Rules.{Cleared};
ghost use Rattle.plan.specs.Plans.{records_in};
ghost use Rattle.plan.specs.Program.{program_of};
ghost use Rattle.rules.specs.Accounts.{empty_account};
ghost use Rattle.clearer.specs.Breach.{FirstBreach, first_breach};
ghost use Rattle.clearer.specs.Faults.{verdict_of, breach_seen};

use crate::fault::ClearFault;
use crate::guard::Zeroed;
use crate::walk::walk_task;
use plan::Plan;
use records::WaitOrder;
use rules::Account;

// The first illegal step of the tasks in the order of the file.
#[tactic(auto, using(crate::proofs::Verdict::clear_first, crate::proofs::Verdict::clear_next, crate::proofs::Verdict::fault_first, crate::proofs::Verdict::none_first))]
fn walk_tasks<O: WaitOrder>(plan: &Plan, account: &mut Account) -> Result<(), ClearFault>
    ensures { verdict_of result ≡ first_breach (program_of O.WaitOrder.made (records_in plan.now.sheet.now)) O.WaitOrder.below }
{
    for task in 0..plan.task_count() {
        walk_task::<O>(plan, account, task)?;
    }
    Ok(())
}

// Walks the tasks in the order of the file, each from what it starts with, as if nothing waited, and answers the first
// illegal step. The account is the caller's; it reads zero on every way out, whatever it held.
pub fn clear<O: WaitOrder>(plan: &Plan, account: &mut Account) -> Result<(), ClearFault>
    ensures zero { account.new ≡ empty_account }
    ensures exact { verdict_of result ≡ first_breach (program_of O.WaitOrder.made (records_in plan.now.sheet.now)) O.WaitOrder.below }
    ensures cleared { MatchResult result (λ _. Cleared (program_of O.WaitOrder.made (records_in plan.now.sheet.now)) O.WaitOrder.below) (λ _. Cleared (program_of O.WaitOrder.made (records_in plan.now.sheet.now)) O.WaitOrder.below → ⊥) }
    ensures first { IfErr result (λ f. FirstBreach (program_of O.WaitOrder.made (records_in plan.now.sheet.now)) O.WaitOrder.below (breach_seen f)) }
{
    let guard = Zeroed(account);
    walk_tasks::<O>(plan, guard.0)
}
