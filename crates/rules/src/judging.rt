// The rule that a step breaks.
ghost use Rattle.std.specs.Prelude.{◌≡◌, ℕ};
ghost use Rattle.model.specs.Rules.{breach, offence, unsettled};
ghost use Rattle.model.specs.Program.{receive, acquire, release};
ghost use Rattle.plan.specs.Plans.{records_in};
ghost use Rattle.plan.specs.Program.{program_of};
ghost use Rattle.plan.specs.Steps.{step_seen};
ghost use Rattle.rules.specs.Accounts.{count_of, held_by};
ghost use Rattle.rules.specs.Offences.{offence_seen};

use crate::account::Account;
use crate::rule::{Offence, Rule};
use crate::searches::{barring, first_held, first_owed};
use plan::{Plan, Step};
use records::WaitOrder;

fn judge_receive<O: WaitOrder>(plan: &Plan, account: &Account, channel: usize) -> Option<Offence>
    ensures { offence_seen result ≡ breach (program_of O.WaitOrder.made (records_in plan.now.sheet.now)) O.WaitOrder.below (receive channel) (count_of account.now) (held_by account.now) }
{
    if account.count(channel) < 1 {
        return Some(Offence {
            rule: Rule::NoCredit,
            object: channel,
        });
    }
    let object = barring::<O>(plan, account, channel)?;
    Some(Offence {
        rule: Rule::ReceiveBarred,
        object,
    })
}

fn judge_acquire<O: WaitOrder>(plan: &Plan, account: &Account, lock: usize) -> Option<Offence>
    ensures { offence_seen result ≡ breach (program_of O.WaitOrder.made (records_in plan.now.sheet.now)) O.WaitOrder.below (acquire lock) (count_of account.now) (held_by account.now) }
{
    let object = barring::<O>(plan, account, lock)?;
    Some(Offence {
        rule: Rule::AcquireBarred,
        object,
    })
}

fn judge_release<O: WaitOrder>(plan: &Plan, account: &Account, lock: usize) -> Option<Offence>
    ensures { offence_seen result ≡ breach (program_of O.WaitOrder.made (records_in plan.now.sheet.now)) O.WaitOrder.below (release lock) (count_of account.now) (held_by account.now) }
{
    (!account.holds(lock)).then_some(Offence {
        rule: Rule::NotHeld,
        object: lock,
    })
}

fn judge_closing<O: WaitOrder>(plan: &Plan, account: &Account) -> Option<Offence>
    ensures { offence_seen result ≡ unsettled (program_of O.WaitOrder.made (records_in plan.now.sheet.now)) (count_of account.now) (held_by account.now) }
{
    let objects = plan.object_count();
    if let Some(object) = first_owed(account, objects) {
        return Some(Offence {
            rule: Rule::Owing,
            object,
        });
    }
    let object = first_held(account, objects)?;
    Some(Offence {
        rule: Rule::Holding,
        object,
    })
}

// The rule that a step breaks with this account, if any.
pub fn judge<O: WaitOrder>(plan: &Plan, account: &Account, step: Step) -> Option<Offence>
    ensures { offence_seen result ≡ offence (program_of O.WaitOrder.made (records_in plan.now.sheet.now)) O.WaitOrder.below (step_seen step) (count_of account.now) (held_by account.now) }
{
    match step {
        Step::Send { .. } => None,
        Step::Receive { channel } => judge_receive::<O>(plan, account, channel),
        Step::Acquire { lock } => judge_acquire::<O>(plan, account, lock),
        Step::Release { lock } => judge_release::<O>(plan, account, lock),
        Step::Start { .. } => None,
        Step::Closing => judge_closing::<O>(plan, account),
    }
}
