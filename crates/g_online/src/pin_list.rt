//! The pinned versions, and what is noted for each of them.
ghost use Rattle.std.specs.Prelude.{◌≡◌, ◌==◌, IfOk};
ghost use Rattle.std.specs.List.{list_any};
ghost use Rattle.g_online.specs.DumpedVersions.{noted_in};
ghost use Rattle.g_online.specs.Invariant.{has_stamp};

use crate::pinned::Pinned;
use g_base::NoMemory;
use g_entry::TapeCopy;
use std::alloc::Global;
use std::marker::Model;

/// Pinned versions in their order. A parallel list has each version's stamp with the tape place that is noted for it, so
/// that a search for a stamp scans few bytes and touches no version. Contracts see the versions.
#[derive(Drop)]
pub(crate) struct PinList {
    versions: Vec<Pinned>,
    notes: Vec<(u64, TapeCopy)>,
}

impl Model for PinList {
    ghost use Rattle.std.specs.Prelude.{◌≡◌, List};
    ghost use Rattle.g_online.specs.declared.pinned.Pinned.{Pinned};
    ghost use Rattle.g_online.specs.DumpedVersions.{noted_in};

    ghost Value = { List Pinned };

    ghost view = { λ l. l.versions.items };

    ghost invariant = { λ l. l.notes.items ≡ noted_in l.versions.items };
}

impl PinList {
    /// These versions.
    pub(crate) fn new(alloc: Global, versions: Vec<Pinned>) -> Result<PinList, NoMemory>
        ensures { IfOk result (λ l. l ≡ versions.items) }
    {
        let notes = notes_of(alloc, &versions)?;
        Ok(PinList { versions, notes })
    }

    pub(crate) fn as_slice(&self) -> &[Pinned]
        ensures { result.now ≡ self.now }
    {
        self.versions.as_slice()
    }

    /// The stamp of each version, and the place noted for it.
    pub(crate) fn notes(&self) -> &[(u64, TapeCopy)]
        ensures { result.now ≡ noted_in self.now }
    {
        self.notes.as_slice()
    }

    /// Whether the version of this stamp is among them.
    #[tactic(auto, using(crate::proofs::PinListLemmas::noted_stamps))]
    pub(crate) fn has(&self, stamp: u64) -> bool
        ensures { result ≡ has_stamp self.now stamp }
    {
        has_note(self.notes(), stamp)
    }
}

/// Whether a place is noted for this stamp.
fn has_note(notes: &[(u64, TapeCopy)], stamp: u64) -> bool
    ensures { result ≡ list_any (λ n. n.0 == stamp) notes.now }
{
    notes.iter().any(|note| note.0 == stamp)
}

/// What is noted for these versions.
fn notes_of(alloc: Global, versions: &[Pinned]) -> Result<Vec<(u64, TapeCopy)>, NoMemory>
    ensures { IfOk result (λ notes. notes.items ≡ noted_in versions.now) }
{
    let mut notes = Vec::new(alloc);
    for pin in versions {
        notes.push((pin.stamp, pin.copy))?;
    }
    Ok(notes)
}
