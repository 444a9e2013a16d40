//! A store as jobs see it.
ghost use Rattle.std.specs.Prelude.{◌≡◌, ℕ, false, true, Err, IfOk, ◌↔◌, IsErrOf};
ghost use Rattle.g_plain.specs.PlainAnswers.{may_wait};
ghost use Rattle.g_plain.specs.Replies.{IsReplyTo};
ghost use Rattle.g_plain.specs.Rules.{IsWithinLimits};

use crate::{StoreCall, StoreFault, StoreReply};
use g_name::User;
use std::alloc::Global;

/// A store of files. The relation `answers` says how a call is answered: it relates the store before, the caller, the
/// call, the answer and the store after. The clauses of `call` hold for every store.
pub trait Filestore {
    ghost use Rattle.std.specs.Prelude.{ℕ, Bool, List, Result};
    ghost use Rattle.g_plain.specs.declared.calls.StoreCall.{StoreCall};
    ghost use Rattle.g_plain.specs.declared.calls.StoreReply.{StoreReply};
    ghost use Rattle.g_plain.specs.declared.faults.StoreFault.{StoreFault};

    // A write has failed, and no call may be made any more.
    ghost is_spent: { Self → Bool };

    // A call may wait for the reel with this serial: it isn't mounted.
    ghost can_wait: { Self → ℕ → Bool };

    ghost answers: { Self → List ℕ → StoreCall → Result StoreReply StoreFault → Self → Type 0 };

    /// Makes a call for the user `who`. Only the answer `Stopped` ends the store, which then accepts no further calls.
    fn call(
        &mut self,
        alloc: Global,
        who: &User,
        call: &StoreCall,
    ) -> Result<StoreReply, StoreFault>
        requires running { is_spent self.old ≡ false }
        requires limits { IsWithinLimits call.now }
        ensures answers { answers self.old who.now call.now result self.new }

        // A call that waits is one that may need a reel, and waits for one that isn't mounted; no call mounts a reel.
        ensures waits { (s : ℕ) → result ≡ Err (StoreFault.WaitTape s)
            → can_wait self.new s ≡ true }
        ensures may_wait { (s : ℕ) → result ≡ Err (StoreFault.WaitTape s)
            → may_wait call.now ≡ true }
        ensures same_waits { (s : ℕ) → can_wait self.new s ≡ can_wait self.old s }

        ensures kind { IfOk result (λ reply. IsReplyTo call.now reply) }
        ensures spent { (is_spent self.new ≡ true) ↔ IsErrOf result StoreFault.Stopped };

    /// Whether a write has failed.
    fn spent(&self) -> bool
        ensures { result ≡ is_spent self.now };
}
