// The first object that breaks a rule.
ghost use Rattle.std.specs.Prelude.{◌≡◌, ℕ, not, ◌&&◌, length};
ghost use Rattle.model.specs.Rules.{bars, busy, first, owes as owing};
ghost use Rattle.plan.specs.Plans.{records_in};
ghost use Rattle.plan.specs.Program.{program_of};
ghost use Rattle.tasks.specs.Records.{objects_of};
ghost use Rattle.rules.specs.Accounts.{count_of, held_by};

use crate::account::Account;
use plan::Plan;
use records::{ObjectRow, WaitOrder};

// The wait level of an object.
fn level_of<O: WaitOrder>(plan: &Plan, object: usize) -> O::Level
    ensures { result ≡ (program_of O.WaitOrder.made (records_in plan.now.sheet.now)).level object }
{
    let ObjectRow { number, extra, .. } = plan.object(object);
    O::level(number, extra)
}

// Whether an object is owed or held and its level is not below the one given.
fn stands_in_way<O: WaitOrder>(
    plan: &Plan,
    account: &Account,
    object: usize,
    goal: &O::Level,
) -> bool
    ensures { result ≡ (busy (count_of account.now) (held_by account.now) object && not (O.WaitOrder.below ((program_of O.WaitOrder.made (records_in plan.now.sheet.now)).level object) goal.now)) }
{
    account.is_busy(object) && !O::below(&level_of::<O>(plan, object), goal)
}

// The first object that is owed or held and whose level is not below that of the one given.
pub(crate) fn barring<O: WaitOrder>(plan: &Plan, account: &Account, object: usize) -> Option<usize>
    ensures { result ≡ first (bars (program_of O.WaitOrder.made (records_in plan.now.sheet.now)) O.WaitOrder.below object (count_of account.now) (held_by account.now)) (length (objects_of (records_in plan.now.sheet.now))) }
{
    let goal = level_of::<O>(plan, object);
    (0..plan.object_count()).find(|x| stands_in_way::<O>(plan, account, *x, &goal))
}

// The first of so many objects that is owed.
pub(crate) fn first_owed(account: &Account, objects: usize) -> Option<usize>
    ensures { result ≡ first (owing (count_of account.now)) objects }
{
    (0..objects).find(|x| account.owes(*x))
}

// The first of so many objects that is held.
pub(crate) fn first_held(account: &Account, objects: usize) -> Option<usize>
    ensures { result ≡ first (held_by account.now) objects }
{
    (0..objects).find(|x| account.holds(*x))
}
