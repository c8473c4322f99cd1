// The walk of a task, as if nothing waited.
ghost use Rattle.std.specs.Prelude.{◌≡◌, ℕ, ◌<◌, length, replicate, false, pos, IfOk, slice_index_or};
ghost use Rattle.model.specs.Program.{step_at};
ghost use Rattle.model.specs.Rules.{offence};
ghost use Rattle.plan.specs.Plans.{records_in};
ghost use Rattle.plan.specs.Program.{program_of, task_line, task_opening, task_ops};
ghost use Rattle.rules.specs.Accounts.{count_of, held_by};
ghost use Rattle.rules.specs.Changes.{locked_by, paid_by};
ghost use Rattle.clearer.specs.Breach.{at_line, task_breach};
ghost use Rattle.clearer.specs.Faults.{verdict_of};

use crate::fault::ClearFault;
use plan::Plan;
use records::WaitOrder;
use records::limits::MOST_OBJECTS;
use rules::{Account, Offence, judge, perform};

// The account that a task starts with.
fn opening_of(plan: &Plan, task: usize) -> Account
    ensures counts { (x : ℕ) → x < 32 → count_of result x ≡ task_opening (records_in plan.now.sheet.now) task x }
    ensures locks { result.locks ≡ replicate 32 false }
    ensures whole { length result.counts ≡ 32 }
{
    Account {
        counts: plan.opening(task),
        locks: [false; MOST_OBJECTS],
    }
}

// Judges the step of a task at a place and, where it is legal, does to the account what it does.
fn walk_step<O: WaitOrder>(
    plan: &Plan,
    account: &mut Account,
    task: usize,
    place: usize,
) -> Result<(), ClearFault>
    ensures found { verdict_of result ≡ at_line (task_line (records_in plan.now.sheet.now) task place) (offence (program_of O.WaitOrder.made (records_in plan.now.sheet.now)) O.WaitOrder.below (step_at (task_ops (records_in plan.now.sheet.now) task) place) (count_of account.old) (held_by account.old)) }
    ensures counts { IfOk result (λ _. (x : ℕ) → x < 32 → count_of account.new x ≡ paid_by (program_of O.WaitOrder.made (records_in plan.now.sheet.now)) (step_at (task_ops (records_in plan.now.sheet.now) task) place) (count_of account.old) x) }
    ensures locks { IfOk result (λ _. (x : ℕ) → x < 32 → held_by account.new x ≡ locked_by (step_at (task_ops (records_in plan.now.sheet.now) task) place) (held_by account.old) x) }
    ensures whole { IfOk result (λ _. (length account.new.counts ≡ 32) × (length account.new.locks ≡ 32)) }
{
    let step = plan.step(task, place);
    if let Some(Offence { rule, object }) = judge::<O>(plan, account, step) {
        return Err(ClearFault {
            rule,
            line: plan.line(task, place),
            object,
        });
    }
    perform::<O>(plan, account, step);
    account.whole();
    Ok(())
}

// The first illegal step of a task, walked from what the task starts with.
pub(crate) fn walk_task<O: WaitOrder>(
    plan: &Plan,
    account: &mut Account,
    task: usize,
) -> Result<(), ClearFault>
    requires { task < (program_of O.WaitOrder.made (records_in plan.now.sheet.now)).threads }
    ensures { verdict_of result ≡ task_breach (program_of O.WaitOrder.made (records_in plan.now.sheet.now)) O.WaitOrder.below task }
{
    plan.meaning::<O>();
    *account = opening_of(plan, task);
    for place in 0..=plan.operation_count(task) {
        walk_step::<O>(plan, account, task, place)?;
    }
    Ok(())
}
