//! The work of a turn of a job, up to its end.
ghost use Rattle.std.specs.Prelude.{◌≡◌, ℕ, None, false, OnErr, OnOk};
ghost use Rattle.g_job.specs.JobValue.{job_of};
ghost use Rattle.g_job.specs.Making.{Makes};
ghost use Rattle.g_job.specs.Rules.{IsJob};
ghost use Rattle.g_job.specs.Terminal.{is_ready};
ghost use Rattle.g_job.specs.Turns.{turn_work};
ghost use Rattle.g_plain.specs.Programs.{RanInPart};

use crate::parts::Parts;
use g_base::NoMemory;
use g_plain::Filestore;
use g_turn::Asker;
use std::alloc::Global;

/// The maximum length of a monitoring file in bytes, before its last line.
const MOST: usize = 1_048_576;

impl Parts {
    /// Does the work of a turn, resuming with what is pending. Usually nothing is.
    pub(crate) fn make<S: Filestore>(
        &mut self,
        alloc: Global,
        store: &mut S,
    ) -> Result<(), NoMemory>
        requires running { S.is_spent store.old ≡ false }
        requires open { self.old.over ≡ false }
        requires rules { IsJob (job_of self.old) }
        ensures ok { OnOk result (Makes S.answers S.is_spent S.can_wait
            (job_of self.old) store.old self.new.work store.new) }
        ensures job { job_of self.new
            ≡ record (job_of self.old) { desk = self.new.work.desk; pending = None; wants = None } }
        ensures ready { self.new.ready ≡ is_ready (job_of self.new) }
        ensures err { OnErr result
            (RanInPart S.answers self.old.user store.old (turn_work (job_of self.old)) store.new) }
        ensures same_waits { (s : ℕ) → S.can_wait store.new s ≡ S.can_wait store.old s }
    {
        if self.again.is_some() {
            return self.make_again(alloc, store);
        }
        let room = MOST - self.monitor.as_slice().len();
        self.wants = None;
        self.work.begin(alloc);
        let asker = Asker {
            alloc,
            who: &self.user,
            room,
        };
        match self.work.run_or_take(store, &asker) {
            Ok(()) => {
                self.ready = self.work.ready();
                Ok(())
            }
            Err(NoMemory) => {
                self.ready = self.work.ready();
                Err(NoMemory)
            }
        }
    }

    /// Does the work of a turn that resumes with what is pending.
    // What is pending is large, and a turn rarely resumes with it: as a function of its own it adds no stack space to others.
    #[inline(never)]
    fn make_again<S: Filestore>(&mut self, alloc: Global, store: &mut S) -> Result<(), NoMemory>
        requires running { S.is_spent store.old ≡ false }
        requires open { self.old.over ≡ false }
        requires rules { IsJob (job_of self.old) }
        ensures ok { OnOk result (Makes S.answers S.is_spent S.can_wait
            (job_of self.old) store.old self.new.work store.new) }
        ensures job { job_of self.new
            ≡ record (job_of self.old) { desk = self.new.work.desk; pending = None; wants = None } }
        ensures ready { self.new.ready ≡ is_ready (job_of self.new) }
        ensures err { OnErr result
            (RanInPart S.answers self.old.user store.old (turn_work (job_of self.old)) store.new) }
        ensures same_waits { (s : ℕ) → S.can_wait store.new s ≡ S.can_wait store.old s }
    {
        let room = MOST - self.monitor.as_slice().len();
        let again = self.again.take();
        self.wants = None;
        self.work.begin(alloc);
        let asker = Asker {
            alloc,
            who: &self.user,
            room,
        };
        let done = self.work.go(store, &asker, again);
        self.ready = self.work.ready();
        done
    }
}
