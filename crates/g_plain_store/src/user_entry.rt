//! A user's superior and budgets.
ghost use Rattle.std.specs.Prelude.{◌≡◌, ◌≤◌};
ghost use Rattle.g_plain.specs.PlainStep.{with_budget};
ghost use Rattle.g_plain.specs.Rules.{most_of};

use g_name::User;
use g_plain::BudgetKind;
use std::marker::Model;

/// A user's superior and budgets. Contracts see a row of the tree.
#[derive(Drop)]
pub(crate) struct UserEntry {
    pub superior: User,
    pub space: u32,
    pub time: u64,
    pub money: u64,
}

impl Model for UserEntry {
    ghost use Rattle.g_plain.specs.PlainTree.{UserRow};

    ghost Value = { UserRow };

    ghost view = { λ u.
        record { superior = u.superior; space = u.space; time = u.time; money = u.money } };
}

impl UserEntry {
    pub fn set(&mut self, kind: BudgetKind, amount: u64)
        requires { amount ≤ most_of kind }
        ensures { self.new ≡ with_budget self.old kind amount }
    {
        match kind {
            BudgetKind::Space => self.space = amount as u32,
            BudgetKind::Time => self.time = amount,
            BudgetKind::Money => self.money = amount,
        }
    }
}
