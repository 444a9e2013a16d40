//! The numbers of one user's files in the order of their names.
ghost use Rattle.std.specs.Prelude.{◌≡◌, ◌==◌, AllPairs, IfOk, filter, map};
ghost use Rattle.g_entry.specs.Rules.{SameName};
ghost use Rattle.g_tree.specs.Names.{name_in, numbers_by_name};

use crate::NumberList;
use g_base::NoMemory;
use g_entry::FileRec;
use g_name::{Lang, Local};
use g_table::FileTable;
use std::alloc::Global;

/// A full name without the user. Names are ordered by local name, generation and language, which is the order of the
/// full names of one user's files.
#[derive(Drop, PartialEq, Eq, PartialOrd, Ord)]
pub(crate) struct LocalName {
    pub(crate) local: Local,
    pub(crate) generation: u16,
    pub(crate) lang: Lang,
}

/// The name of a file without its user.
pub(crate) fn name_in(file: &FileRec) -> LocalName
    ensures { result ≡ name_in file.now }
{
    LocalName {
        local: file.local.copy(),
        generation: file.generation,
        lang: file.lang.copy(),
    }
}

/// The numbers of an owner's files in the order of their names, which are all different.
pub(crate) fn listing_of(
    alloc: Global,
    owner: u8,
    files: &FileTable,
) -> Result<NumberList, NoMemory>
    requires { AllPairs (λ r s. SameName r s → ⊥) files.now }
    ensures { IfOk result (λ list. list ≡ numbers_by_name owner files.now) }
{
    let mut entries = entries_of(alloc, owner, files)?;
    entries.sort_unstable();
    numbers_of(alloc, &entries)
}

/// The names of an owner's files, each with the file's number.
fn entries_of(
    alloc: Global,
    owner: u8,
    files: &FileTable,
) -> Result<Vec<(LocalName, u16)>, NoMemory>
    ensures { IfOk result (λ entries. entries.items
        ≡ map (λ r. (name_in r, r.number)) (filter (λ r. r.owner == owner) files.now)) }
{
    let mut entries = Vec::new(alloc);
    for file in files {
        if file.owner == owner {
            entries.push((name_in(file), file.number))?;
        }
    }
    Ok(entries)
}

/// The numbers of these entries.
fn numbers_of(alloc: Global, entries: &[(LocalName, u16)]) -> Result<NumberList, NoMemory>
    ensures { IfOk result (λ list. list ≡ map (λ e. e.1) entries.now) }
{
    let mut list = NumberList::new(alloc);
    for entry in entries {
        list.push(entry.1)?;
    }
    Ok(list)
}
