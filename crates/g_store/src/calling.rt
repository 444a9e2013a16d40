//! The calls of jobs: a store is a `Filestore`.
ghost use Rattle.std.specs.Prelude.{◌≡◌};
ghost use Rattle.g_store_calls.specs.Answering.{KeepsPlan};
ghost use Rattle.g_store_calls.specs.Kinds.{stops_call};

use crate::store::Store;
use g_disc::Disc;
use g_dumper::Dump;
use g_name::User;
use g_plain::{Filestore, StoreCall, StoreFault, StoreReply};
use g_store_calls::answer;
use g_tape::Tapes;
use std::alloc::Global;

impl<D: Disc, T: Tapes> Filestore for Store<D, T> {
    ghost use Rattle.std.specs.Prelude.{not};
    ghost use Rattle.g_tape.specs.Rack.{is_mounted, reel};
    ghost use Rattle.g_store_meaning.specs.Answers.{Answers};

    ghost is_spent = { λ s. s.spent };

    ghost can_wait = { λ s serial. not (is_mounted (reel serial s.rack.reels)) };

    ghost answers = { Answers };

    fn call(
        &mut self,
        alloc: Global,
        who: &User,
        call: &StoreCall,
    ) -> Result<StoreReply, StoreFault> {
        plan_kept(&self.dump);
        let reply = answer(alloc, &mut self.online, &mut self.tapes, who, call);
        self.spent = is_stopped(&reply);
        reply
    }

    fn spent(&self) -> bool {
        self.spent
    }
}

/// The solver learns here that the plan of the open dump satisfies the rules of a plan.
fn plan_kept(dump: &Option<Dump>)
    ensures { KeepsPlan dump.now }
{
    match dump {
        Some(dump) => {
            let _needs = dump.needs();
        }
        None => {}
    }
}

/// Whether the answer is `Stopped`.
fn is_stopped(answer: &Result<StoreReply, StoreFault>) -> bool
    ensures { result ≡ stops_call answer.now }
{
    matches!(answer, Err(StoreFault::Stopped))
}
