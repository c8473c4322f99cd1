// What a step does to the account of its thread.
ghost use Rattle.std.specs.Prelude.{◌≡◌, ℕ, ◌<◌};
ghost use Rattle.plan.specs.Plans.{records_in};
ghost use Rattle.plan.specs.Program.{program_of};
ghost use Rattle.plan.specs.Steps.{step_seen};
ghost use Rattle.rules.specs.Accounts.{count_of, held_by};
ghost use Rattle.rules.specs.Changes.{locked_by, paid_by};

use crate::account::Account;
use crate::counts::{add, gained, set_lock, subtract};
use plan::{Plan, Step};
use records::WaitOrder;

// Changes the account as the step says. Counts have 32 bits, which the accounts of a plan never leave.
pub fn perform<O: WaitOrder>(plan: &Plan, account: &mut Account, step: Step)
    ensures counts { (x : ℕ) → x < 32 → count_of account.new x ≡ paid_by (program_of O.WaitOrder.made (records_in plan.now.sheet.now)) (step_seen step) (count_of account.old) x }
    ensures locks { (x : ℕ) → x < 32 → held_by account.new x ≡ locked_by (step_seen step) (held_by account.old) x }
{
    match step {
        Step::Send { channel, .. } => {
            let amounts = gained(channel, &plan.carried(channel));
            add(&mut account.counts, &amounts);
        }
        Step::Receive { channel } => {
            let amounts = gained(channel, &plan.carried(channel));
            subtract(&mut account.counts, &amounts);
        }
        Step::Acquire { lock } => set_lock(&mut account.locks, lock, true),
        Step::Release { lock } => set_lock(&mut account.locks, lock, false),
        Step::Start { task } => {
            let amounts = plan.opening(task);
            subtract(&mut account.counts, &amounts);
        }
        Step::Closing => {}
    }
}
