//! The effects and replies of granted calls on the plain tree.
ghost use Rattle.std.specs.Prelude.{◌≡◌, ◌≤◌, ◌+◌, ◌<◌, ◌^◌, true, false, None, length};
ghost use Rattle.g_trap.specs.declared.mode_set.Mode.{Mode};
ghost use Rattle.g_plain.specs.PlainTree as tree;
ghost use Rattle.g_plain.specs.PlainStep.{fault_of, IsGranted};
ghost use Rattle.g_plain.specs.Rules.{IsTree, IsWithinLimits, most_of};

use crate::plain_tree::PlainTree;
use crate::user_entry::UserEntry;
use g_base::NoMemory;
use g_name::{Local, Path, Text, User};
use g_plain::{BudgetKind, StoreCall, StoreReply, with_local};
use g_trap::Modes;
use std::alloc::Global;

impl PlainTree {
    /// Executes a call that has no fault. If memory runs out, nothing is changed.
    pub fn grant(
        &mut self,
        alloc: Global,
        who: &User,
        call: &StoreCall,
    ) -> Result<StoreReply, NoMemory>
        requires tree { IsTree self.old }
        requires limits { IsWithinLimits call.now }
        requires granted { fault_of self.old who.now call.now ≡ None }
        ensures { IsGranted self.old who.now call.now result self.new }
    {
        match call {
            StoreCall::NewUser {
                user,
                space,
                time,
                money,
            } => self.new_user(who, user, *space, *time, *money),
            StoreCall::Budget { user, kind, amount } => self.budget(who, user, *kind, *amount),
            StoreCall::Put { path, bytes } => self.put(alloc, who, path, bytes),
            StoreCall::Append { path, bytes } => self.append(alloc, who, path, bytes),
            StoreCall::Fetch { path, .. } => self.fetch(alloc, who, path),
            StoreCall::Erase { path } => self.erase_named(who, path),
            StoreCall::Rename { path, to } => self.rename_named(alloc, who, path, to),
            StoreCall::List { user } => self.list(alloc, who, user),
            StoreCall::TrapGo { path, user, modes } => self.trap_go(who, path, user, *modes),
            StoreCall::TrapStop { path, user, modes } => self.trap_stop(who, path, user, *modes),
            StoreCall::TrapCheck { path, user } => self.trap_check(who, path, user),
            StoreCall::Retrieve { path } => self.retrieve(who, path),
        }
    }

    fn new_user(
        &mut self,
        who: &User,
        user: &User,
        space: u32,
        time: u64,
        money: u64,
    ) -> Result<StoreReply, NoMemory>
        ensures { IsGranted self.old who.now
            (StoreCall.NewUser user.now space time money) result self.new }
    {
        let entry = UserEntry {
            superior: who.copy(),
            space,
            time,
            money,
        };
        self.add_user(user.copy(), entry)?;
        Ok(StoreReply::Done)
    }

    fn budget(
        &mut self,
        who: &User,
        user: &User,
        kind: BudgetKind,
        amount: u64,
    ) -> Result<StoreReply, NoMemory>
        requires there { tree.has_user self.old user.now ≡ true }
        requires limit { amount ≤ most_of kind }
        ensures { IsGranted self.old who.now
            (StoreCall.Budget user.now kind amount) result self.new }
    {
        self.set_budget(user, kind, amount);
        Ok(StoreReply::Done)
    }

    fn put(
        &mut self,
        alloc: Global,
        who: &User,
        path: &Path,
        bytes: &Text,
    ) -> Result<StoreReply, NoMemory>
        requires tree { IsTree self.old }
        requires few { length bytes.now ≤ 65536 }
        requires stamps { self.old.next < 2 ^ 62 }
        ensures { IsGranted self.old who.now (StoreCall.Put path.now bytes.now) result self.new }
    {
        let full = self.output_name(who, path);
        let bytes = Text::from_slice(alloc, bytes.as_slice())?;
        self.put_version(alloc, full.copy(), bytes)?;
        Ok(StoreReply::Made(full))
    }

    fn append(
        &mut self,
        alloc: Global,
        who: &User,
        path: &Path,
        bytes: &Text,
    ) -> Result<StoreReply, NoMemory>
        requires tree { IsTree self.old }
        requires there { tree.has_file self.old (tree.input_name self.old who.now path.now) ≡ true }
        requires few { let full = tree.input_name self.old who.now path.now in
            let row = tree.file_row self.old full in length row.bytes + length bytes.now ≤ 65536 }
        requires stamps { self.old.next < 2 ^ 62 }
        ensures { IsGranted self.old who.now (StoreCall.Append path.now bytes.now) result self.new }
    {
        let full = self.input_name(who, path);
        let bytes = self.bytes_with(alloc, &full, bytes.as_slice())?;
        self.put_version(alloc, full.copy(), bytes)?;
        Ok(StoreReply::Appended(full))
    }

    fn fetch(&self, alloc: Global, who: &User, path: &Path) -> Result<StoreReply, NoMemory>
        requires tree { IsTree self.now }
        requires there { tree.has_file self.now (tree.input_name self.now who.now path.now) ≡ true }
        ensures { (mode : Mode) → IsGranted self.now who.now
            (StoreCall.Fetch path.now mode) result self.now }
    {
        let full = self.input_name(who, path);
        let bytes = self.bytes_with(alloc, &full, &[])?;
        Ok(StoreReply::Bytes { full, bytes })
    }

    fn erase_named(&mut self, who: &User, path: &Path) -> Result<StoreReply, NoMemory>
        requires { IsTree self.old }
        ensures { IsGranted self.old who.now (StoreCall.Erase path.now) result self.new }
    {
        let full = self.input_name(who, path);
        self.erase(&full);
        Ok(StoreReply::Erased(full))
    }

    fn rename_named(
        &mut self,
        alloc: Global,
        who: &User,
        path: &Path,
        to: &Local,
    ) -> Result<StoreReply, NoMemory>
        requires tree { IsTree self.old }
        requires there { tree.has_file self.old (tree.input_name self.old who.now path.now) ≡ true }
        requires free { let full = tree.input_name self.old who.now path.now in
            tree.has_file self.old (record full { local = to.now }) ≡ false }
        ensures { IsGranted self.old who.now (StoreCall.Rename path.now to.now) result self.new }
    {
        let full = self.input_name(who, path);
        let renamed = with_local(&full, to);
        self.rename(alloc, &full, renamed.copy())?;
        Ok(StoreReply::Renamed(renamed))
    }

    fn list(&self, alloc: Global, who: &User, user: &User) -> Result<StoreReply, NoMemory>
        ensures { IsGranted self.now who.now (StoreCall.List user.now) result self.now }
    {
        Ok(StoreReply::Listing(self.listing(alloc, user)?))
    }

    fn trap_go(
        &mut self,
        who: &User,
        path: &Path,
        user: &User,
        modes: Modes,
    ) -> Result<StoreReply, NoMemory>
        requires tree { IsTree self.old }
        requires there { tree.has_file self.old (tree.input_name self.old who.now path.now) ≡ true }
        ensures { IsGranted self.old who.now
            (StoreCall.TrapGo path.now user.now modes) result self.new }
    {
        let full = self.input_name(who, path);
        let modes = self.given_modes(&full, user).union(modes);
        self.set_traps(&full, user, modes)?;
        Ok(StoreReply::Done)
    }

    fn trap_stop(
        &mut self,
        who: &User,
        path: &Path,
        user: &User,
        modes: Modes,
    ) -> Result<StoreReply, NoMemory>
        requires tree { IsTree self.old }
        requires there { tree.has_file self.old (tree.input_name self.old who.now path.now) ≡ true }
        ensures { IsGranted self.old who.now
            (StoreCall.TrapStop path.now user.now modes) result self.new }
    {
        let full = self.input_name(who, path);
        let modes = self.given_modes(&full, user).without(modes);
        self.set_traps(&full, user, modes)?;
        Ok(StoreReply::Done)
    }

    fn trap_check(&self, who: &User, path: &Path, user: &User) -> Result<StoreReply, NoMemory>
        requires tree { IsTree self.now }
        requires there { tree.has_file self.now (tree.input_name self.now who.now path.now) ≡ true }
        ensures { IsGranted self.now who.now
            (StoreCall.TrapCheck path.now user.now) result self.now }
    {
        let full = self.input_name(who, path);
        Ok(StoreReply::Modes(self.modes_of(&full, user)))
    }

    fn retrieve(&self, who: &User, path: &Path) -> Result<StoreReply, NoMemory>
        requires { IsTree self.now }
        ensures { IsGranted self.now who.now (StoreCall.Retrieve path.now) result self.now }
    {
        Ok(StoreReply::Retrieved(self.input_name(who, path)))
    }
}
