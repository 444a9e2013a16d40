//! An index of files by full name.
ghost use Rattle.std.specs.Prelude.{◌≡◌, ℕ, ◌+◌, ◌≤◌, OnOk, is_some, true};
ghost use Rattle.std.specs.FinMap as finmap;
ghost use Rattle.g_tree.specs.State.{closed, fallen, is_first_of_two, lifted, raised, settled};

use g_base::NoMemory;
use g_name::Full;
use indexmap::IndexMap;
use std::alloc::Global;
use std::marker::Model;

/// What the index has for a full name: the number of its file, and, under the name of a generation 1, the greatest
/// generation of the file's versions, which is 0 under every other name. If generation 1 was removed and others exist,
/// its name has no number.
#[derive(Clone, Copy)]
pub(crate) struct NameEntry {
    pub number: Option<u16>,
    pub newest: u16,
    /// The number of the newest version.
    pub top: Option<u16>,
}

/// The newest version of a file: its generation and number, or 0 and `None` if there is none.
#[derive(Clone, Copy)]
pub(crate) struct Newest {
    pub generation: u16,
    pub number: Option<u16>,
}

/// The entry with its newest version raised to at least this generation, which has this number.
pub(crate) fn lifted(entry: NameEntry, newest: u16, number: u16) -> NameEntry
    ensures { result ≡ lifted entry newest number }
{
    if newest < entry.newest {
        return entry;
    }
    NameEntry {
        number: entry.number,
        newest,
        top: Some(number),
    }
}

/// Whether there are exactly the generations 1 and 2.
pub(crate) fn is_first_of_two(entry: NameEntry) -> bool
    ensures { result ≡ is_first_of_two entry }
{
    entry.newest == 2 && entry.number.is_some()
}

/// A map from full names to entries. Contracts also see how many more names can be added without allocating.
#[derive(Drop)]
pub(crate) struct Index {
    names: IndexMap<Full, NameEntry>,
}

impl Model for Index {
    ghost use Rattle.std.specs.FinMap.{from_entries};
    ghost use Rattle.indexmap.specs.IndexMap.{spare};
    ghost use Rattle.g_tree.specs.State.{IndexState};
    ghost use Rattle.g_tree.specs.Codes.{index_code};

    ghost Value = { IndexState };

    ghost coded = { index_code };

    ghost view = { λ i. record {
      entries = from_entries i.names.entries;
      spare = spare i.names;
    } };
}

impl Index {
    /// The empty index. It allocates nothing.
    pub fn new(alloc: Global) -> Index
        ensures { result.entries ≡ finmap.empty }
    {
        Index {
            names: IndexMap::new(alloc),
        }
    }

    pub fn find(&self, full: &Full) -> Option<NameEntry>
        ensures { result ≡ finmap.get self.now.entries full.now }
    {
        self.names.get(full).copied()
    }

    /// Reserves memory for `more` names. If memory runs out, at least the earlier reserve remains.
    pub fn reserve(&mut self, more: usize) -> Result<(), NoMemory>
        ensures entries { self.new.entries ≡ self.old.entries }
        ensures ok { OnOk result (more ≤ self.new.spare) }
        ensures kept { self.old.spare ≤ self.new.spare }
    {
        self.names.reserve(more)?;
        Ok(())
    }

    /// Sets the entry of a name, for which memory is reserved, and returns the earlier one.
    pub fn insert(&mut self, full: Full, entry: NameEntry) -> Option<NameEntry>
        requires { 1 ≤ self.old.spare }
        ensures was { result ≡ finmap.get self.old.entries full }
        ensures entries { self.new.entries ≡ finmap.insert self.old.entries full entry }
        ensures spare { self.old.spare ≤ self.new.spare + 1 }
    {
        match self.names.insert(full, entry) {
            Ok(was) => was,
            Err(_) => unreachable!(),
        }
    }

    /// Replaces the entry of an existing name, without allocating.
    pub fn replace(&mut self, full: &Full, entry: NameEntry)
        requires { is_some (finmap.get self.old.entries full.now) ≡ true }
        ensures entries { self.new.entries ≡ finmap.insert self.old.entries full.now entry }
        ensures spare { self.new.spare ≡ self.old.spare }
    {
        match self.names.get_mut(full) {
            Some(there) => *there = entry,
            None => unreachable!(),
        }
    }

    /// Raises the newest version under a name to at least this generation, which has this number, if the name exists.
    /// Returns whether it exists.
    pub fn raise(&mut self, full: &Full, newest: u16, number: u16) -> bool
        ensures there { result ≡ is_some (finmap.get self.old.entries full.now) }
        ensures entries { self.new.entries ≡ raised self.old.entries full.now newest number }
        ensures spare { self.new.spare ≡ self.old.spare }
    {
        let Some(there) = self.names.get_mut(full) else {
            return false;
        };
        *there = lifted(*there, newest, number);
        true
    }

    /// If the newest version under the name of an existing generation 1 is generation 2, sets it to generation 1.
    /// Returns the earlier entry of the name.
    pub fn fall(&mut self, full: &Full) -> Option<NameEntry>
        ensures was { result ≡ finmap.get self.old.entries full.now }
        ensures entries { self.new.entries ≡ fallen self.old.entries full.now }
        ensures spare { self.new.spare ≡ self.old.spare }
    {
        let Some(there) = self.names.get_mut(full) else {
            return None;
        };
        let was = *there;
        if is_first_of_two(was) {
            *there = NameEntry {
                number: was.number,
                newest: 1,
                top: was.number,
            };
            return Some(was);
        }
        Some(was)
    }

    /// Sets the newest version under an existing name.
    pub fn settle(&mut self, full: &Full, newest: Newest)
        requires { is_some (finmap.get self.old.entries full.now) ≡ true }
        ensures entries { self.new.entries
            ≡ settled self.old.entries full.now newest.generation newest.number }
        ensures spare { self.new.spare ≡ self.old.spare }
    {
        match self.names.get_mut(full) {
            Some(there) => {
                let was = *there;
                *there = NameEntry {
                    number: was.number,
                    newest: newest.generation,
                    top: newest.number,
                };
            }
            None => unreachable!(),
        }
    }

    /// Removes the name of a generation 1 by one look-up. If the newest version under it has a greater generation, the
    /// name remains, without a number.
    pub fn close(&mut self, full: &Full)
        ensures entries { self.new.entries ≡ closed self.old.entries full.now }
        ensures spare { self.old.spare ≤ self.new.spare }
    {
        let Some((place, _name, entry)) = self.names.get_full(full) else {
            return;
        };
        let newest = entry.newest;
        let top = entry.top;
        if newest < 2 {
            self.names.swap_remove_index(place);
            return;
        }
        self.replace(
            full,
            NameEntry {
                number: None,
                newest,
                top,
            },
        );
    }

    pub fn remove(&mut self, full: &Full)
        ensures entries { self.new.entries ≡ finmap.remove self.old.entries full.now }
        ensures spare { self.old.spare ≤ self.new.spare }
    {
        self.names.swap_remove(full);
    }
}
