//! The files of a directory in the order in which they are listed.
ghost use Rattle.std.specs.Prelude.{◌≡◌, ◌++◌, IfOk, OnOk};
ghost use Rattle.std.specs.Option.{option_map};
ghost use Rattle.g_tree.specs.Records.{name_of};
ghost use Rattle.g_look.specs.Numbers.{all_numbers, asked_numbers, numbers_named};

use g_base::NoMemory;
use g_tree::Tree;
use std::alloc::Global;

/// The numbers of the files of all users, or of this one: users by number, the files of a user by full name.
pub(crate) fn asked_numbers(
    alloc: Global,
    tree: &Tree,
    only: Option<u8>,
) -> Result<Vec<u16>, NoMemory>
    ensures { IfOk result (λ numbers. numbers.items
        ≡ asked_numbers tree.now.users tree.now.files (option_map (name_of tree.now.users) only)) }
{
    match only {
        Some(user) => user_numbers(alloc, tree, user),
        None => all_numbers(alloc, tree),
    }
}

/// The numbers of the files of all users.
pub(crate) fn all_numbers(alloc: Global, tree: &Tree) -> Result<Vec<u16>, NoMemory>
    ensures { IfOk result (λ numbers. numbers.items ≡ all_numbers tree.now.users tree.now.files) }
{
    let mut numbers = Vec::new(alloc);
    let users = tree.users();
    for user in users {
        match add_numbers(alloc, &mut numbers, tree, user.number) {
            Ok(()) => {}
            Err(fault) => return Err(fault),
        }
    }
    Ok(numbers)
}

/// The numbers of a user's files.
fn user_numbers(alloc: Global, tree: &Tree, user: u8) -> Result<Vec<u16>, NoMemory>
    ensures { IfOk result (λ numbers. numbers.items
        ≡ numbers_named tree.now.users tree.now.files (name_of tree.now.users user)) }
{
    let mut numbers = Vec::new(alloc);
    match add_numbers(alloc, &mut numbers, tree, user) {
        Ok(()) => Ok(numbers),
        Err(fault) => Err(fault),
    }
}

/// Appends the numbers of a user's files.
fn add_numbers(alloc: Global, numbers: &mut Vec<u16>, tree: &Tree, user: u8) -> Result<(), NoMemory>
    ensures { OnOk result (numbers.new.items ≡ numbers.old.items
        ++ numbers_named tree.now.users tree.now.files (name_of tree.now.users user)) }
{
    let listed = tree.listing(alloc, user)?;
    numbers.extend_from_slice(listed.as_slice())?;
    Ok(())
}
