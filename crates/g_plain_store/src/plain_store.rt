//! A store in memory that is the plain tree and nothing more.
ghost use Rattle.std.specs.Prelude.{◌≡◌, IfOk, IsOk, is_some};
ghost use Rattle.std.specs.Option.{option_map};
ghost use Rattle.std.specs.FinMap.{get};
ghost use Rattle.g_plain.specs.Grants.{file_named};
ghost use Rattle.g_plain.specs.PlainTree.{formatted, has_file};

use crate::plain_tree::PlainTree;
use g_base::NoMemory;
use g_name::{Full, Path, User};
use g_plain::{
    Filestore, HoldsTree, NamedFile, Questions, StoreCall, StoreFault, StoreReply, call_is_named,
    refusal,
};
use g_trap::Modes;
use std::alloc::Global;
use std::marker::Model;

/// The plain tree as a store: each call is answered by the plain step, or memory runs out and nothing is changed. It
/// never waits and never stops. Contracts see the tree.
#[derive(Drop)]
pub struct PlainStore {
    tree: PlainTree,
}

impl Model for PlainStore {
    ghost use Rattle.g_plain.specs.PlainTree.{Tree};
    ghost use Rattle.g_plain.specs.Codes.{tree_code};
    ghost use Rattle.g_plain.specs.Rules.{IsTree};

    ghost Value = { Tree };

    ghost coded = { tree_code };

    ghost view = { λ s. s.tree };

    ghost invariant = { λ s. IsTree s.tree };
}

impl PlainStore {
    /// A new filestore: `MASTER`, and `MACROS` below it, both with SPACE 65,535 and TIME and MONEY 1,000,000, and no
    /// files.
    pub fn new(alloc: Global) -> Result<PlainStore, NoMemory>
        ensures { IfOk result (λ store. store ≡ formatted) }
    {
        let tree = PlainTree::formatted(alloc)?;
        Ok(PlainStore { tree })
    }

    /// The file with a full name. This store identifies files by name; the number says only that the file exists.
    fn find(&self, full: Full) -> NamedFile
        ensures named { result ≡ file_named (λ f. option_map (λ row. 0) (get self.now.files f)) full }
        ensures there { is_some result.number ≡ has_file self.now full }
    {
        let number = if self.tree.has_file(&full) {
            Some(0)
        } else {
            None
        };
        NamedFile { full, number }
    }
}

impl Questions for PlainStore {
    ghost use Rattle.std.specs.Option.{option_map};
    ghost use Rattle.std.specs.FinMap.{get};

    ghost tree = { λ s. s };

    // 0 if the file exists.
    ghost numbers = { λ s full. option_map (λ row. 0) (get s.files full) };

    fn has_user(&self, user: &User) -> bool {
        self.tree.has_user(user)
    }

    fn is_superior(&self, who: &User, user: &User) -> bool {
        self.tree.is_superior(who, user)
    }

    fn users(&self) -> usize {
        self.tree.users()
    }

    fn has_file(&self, full: &Full) -> bool {
        self.tree.has_file(full)
    }

    fn files(&self) -> usize {
        self.tree.files()
    }

    fn input(&self, who: &User, path: &Path) -> NamedFile {
        self.find(self.tree.input_name(who, path))
    }

    fn output(&self, who: &User, path: &Path) -> NamedFile {
        self.find(self.tree.output_name(who, path))
    }

    fn len_of(&self, file: &NamedFile) -> u32 {
        self.tree.len_of(&file.full)
    }

    fn space_left(&self, file: &NamedFile) -> u32 {
        self.tree.space_left(&file.full)
    }

    fn modes_of(&self, file: &NamedFile, user: &User) -> Modes {
        self.tree.modes_of(&file.full, user)
    }

    fn is_ninth(&self, file: &NamedFile, user: &User, modes: Modes) -> bool {
        self.tree.is_ninth(&file.full, user, modes)
    }

    fn stamps_spent(&self) -> bool {
        self.tree.stamps_spent()
    }
}

impl Filestore for PlainStore {
    ghost use Rattle.std.specs.Prelude.{false};
    ghost use Rattle.g_plain.specs.PlainStep.{IsPlainAnswer};

    ghost is_spent = { λ s. false };

    ghost can_wait = { λ s serial. false };

    ghost answers = { IsPlainAnswer };

    fn call(
        &mut self,
        alloc: Global,
        who: &User,
        call: &StoreCall,
    ) -> Result<StoreReply, StoreFault> {
        call_is_named(call);
        if let Some(fault) = refusal(self, who, call) {
            return Err(fault);
        }
        Ok(self.tree.grant(alloc, who, call)?)
    }

    fn spent(&self) -> bool {
        false
    }
}

impl HoldsTree for PlainStore {
    ghost use Rattle.std.specs.Prelude.{◌≡◌};
    ghost use Rattle.g_plain_store.specs.PlainHolding.{plain_holds};

    ghost holds = { λ s t. s ≡ t };

    ghost plainly = { plain_holds };
}
