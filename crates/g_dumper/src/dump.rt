//! An open dump, and its steps.
ghost use Rattle.std.specs.Prelude.{◌≡◌};
ghost use Rattle.g_incr.specs.Plan.{IsPlan, needs};

use g_incr::Writer;
use std::marker::Model;

/// The answer of a step: the dump continues, or it is completed and has this number.
#[derive(Clone, Copy, PartialEq, Eq)]
pub enum DumpStep {
    Going,
    Completed(u64),
}

/// An open dump: what it will hold, fixed at its opening, and the number of its blocks that are written. The bytes of the
/// versions that wait are those that the online filestore has pinned.
#[derive(Drop)]
pub struct Dump {
    pub(crate) writer: Writer,
    pub(crate) serial: u32,
    pub(crate) place: u32,
    pub(crate) number: u64,
    pub(crate) done: u32,
}

impl Model for Dump {
    ghost use Rattle.g_store_meaning.specs.StoreInvariant.{DumpFacts};
    ghost use Rattle.g_dumper.specs.Steps.{IsNamed};

    ghost Value = { DumpFacts };

    ghost view = { λ d. record { plan = d.writer; done = d.done } };

    // The writer satisfies the rules of a plan; the other numbers are those of the plan.
    ghost invariant = { λ d. IsNamed d.writer d.serial d.place d.number d.done };
}

impl Dump {
    /// The number of tape blocks that the dump takes.
    pub fn needs(&self) -> u32
        ensures needs { result ≡ needs self.now.plan }
        ensures rules { IsPlan self.now.plan }
    {
        self.writer.needs()
    }

    /// The number of the dump.
    pub fn number(&self) -> u64
        ensures { result ≡ self.now.plan.number }
    {
        self.number
    }

    /// The serial of its reel.
    pub fn serial(&self) -> u32
        ensures { result ≡ self.now.plan.serial }
    {
        self.serial
    }
}
