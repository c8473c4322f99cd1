// The guard over the working account of the clearer.
ghost use Rattle.std.specs.Prelude.{◌≡◌};
ghost use Rattle.rules.specs.Accounts.{empty_account};

use rules::Account;

// Sets the account to zero wherever the guard is let go.
pub(crate) struct Zeroed<'a>(pub(crate) &'a mut Account);

impl Drop for Zeroed<'_> {
    fn drop(self)
        ensures { self.exit.0.now ≡ empty_account }
    {
        *self.0 = Account::empty();
        let Zeroed(_) = self;
    }
}
