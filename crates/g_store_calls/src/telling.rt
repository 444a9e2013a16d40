//! Calls that only report: the files of a user, and what a user may do with a file.
ghost use Rattle.std.specs.Prelude.{◌≡◌, ◌<◌, true, All, IfOk, ℕ, List, Some, length, map};
ghost use Rattle.g_name.specs.declared.full.Full.{Full};
ghost use Rattle.g_name.specs.declared.path.Path.{Path};
ghost use Rattle.g_disc_contents.specs.Facts.{IsTied};
ghost use Rattle.g_plain.specs.declared.calls.StoreCall.TheVariants as call;
ghost use Rattle.g_plain.specs.PlainTree as plain;
ghost use Rattle.g_tree.specs.declared.asked.Granted.TheVariants as grant;
ghost use Rattle.g_tree.specs.Records.{ForTree, name_of, name_of_file};
ghost use Rattle.g_store_calls.specs.GrantedCalls.{AnswersGranted, GrantsOne};
ghost use Rattle.g_store_calls.specs.Kinds.{IsSettled};
ghost use Rattle.g_store_calls.specs.Replies.{AreLengths, IsThere, row_of};

use g_base::NoMemory;
use g_disc::Disc;
use g_name::{Full, User};
use g_online::Online;
use g_plain::{Listing, StoreFault, StoreReply};
use g_trap::Modes;
use g_tree::{Tree, full_of};
use std::alloc::Global;

/// The answer to `List`. No device is used, and nothing changes. `NoMemory`.
pub(crate) fn list<D: Disc>(
    alloc: Global,
    online: &Online<D>,
    user: &User,
) -> Result<StoreReply, StoreFault>
    requires live { online.now.live ≡ true }
    requires granted { GrantsOne online.now grant.Nothing (call.List user.now) }
    ensures answers { AnswersGranted online.now grant.Nothing result online.now (call.List user.now) }
    ensures kind { IsSettled (call.List user.now) result }
{
    match listing(alloc, online.tree(), user) {
        Ok(listing) => Ok(StoreReply::Listing(listing)),
        Err(_) => Err(StoreFault::NoMemory),
    }
}

/// The answer to `TrapCheck` for this file. No device is used, and nothing changes.
pub(crate) fn trap_check<D: Disc>(
    online: &Online<D>,
    number: u16,
    user: &User,
) -> Result<StoreReply, StoreFault>
    requires live { online.now.live ≡ true }
    requires tied { IsTied online.now }
    requires granted { (path : Path) × (full : Full) × GrantsOne online.now (grant.Input number full) (call.TrapCheck path user.now) }
    ensures answers { (path : Path) (full : Full) → AnswersGranted online.now (grant.Input number full) result online.now
        (call.TrapCheck path user.now) }
    ensures kind { (path : Path) (full : Full) → GrantsOne online.now (grant.Input number full) (call.TrapCheck path user.now)
        → IsSettled (call.TrapCheck path user.now) result }
{
    Ok(StoreReply::Modes(modes_of(online.tree(), number, user)))
}

/// The files of an existing user, with their lengths, in the order of their names.
fn listing(alloc: Global, tree: &Tree, user: &User) -> Result<Listing, NoMemory>
    requires there { ForTree tree.now.users tree.now.files (λ t. plain.has_user t user.now ≡ true) }
    ensures { IfOk result (AreLengths tree.now.users tree.now.files user.now) }
{
    // The solver learns here that the records satisfy their rules.
    let _users = tree.users();
    let owner = number_of_user(tree, user);
    let numbers = match tree.listing(alloc, owner) {
        Ok(numbers) => numbers,
        Err(fault) => return Err(fault),
    };
    rows_of(alloc, tree, numbers.as_slice())
}

/// The names and lengths of the files of these numbers.
fn rows_of(alloc: Global, tree: &Tree, numbers: &[u16]) -> Result<Listing, NoMemory>
    requires there { All (IsThere tree.now.files) numbers.now }
    ensures { IfOk result (λ rows. rows ≡ map (row_of tree.now.users tree.now.files) numbers.now) }
{
    let mut listing = Listing::new(alloc);
    for number in numbers {
        let (full, len) = row_of(tree, *number);
        match listing.push(full, len) {
            Ok(()) => {}
            Err(fault) => return Err(fault),
        }
    }
    Ok(listing)
}

/// The name and the length of the file of this number.
fn row_of(tree: &Tree, number: u16) -> (Full, u32)
    requires { IsThere tree.now.files number }
    ensures { result ≡ row_of tree.now.users tree.now.files number }
{
    match tree.file_at(number) {
        Some(file) => (full_of(tree.users(), file), file.len),
        None => unreachable!(),
    }
}

/// What an existing user may do with the file of this number.
fn modes_of(tree: &Tree, number: u16, user: &User) -> Modes
    requires file { IsThere tree.now.files number }
    requires there { ForTree tree.now.users tree.now.files (λ t. plain.has_user t user.now ≡ true) }
    ensures { (who : List ℕ) (path : Path) (full : Full) → name_of_file tree.now.users tree.now.files number ≡ Some full
        → ForTree tree.now.users tree.now.files (λ t. full ≡ plain.input_name t who path)
        → ForTree tree.now.users tree.now.files (λ t. let name = plain.input_name t who path in
        result ≡ plain.modes_of (plain.file_row t name) name user.now) }
{
    tree.modes_of(number, number_of_user(tree, user))
}

/// The number of an existing user.
pub(crate) fn number_of_user(tree: &Tree, user: &User) -> u8
    requires { ForTree tree.now.users tree.now.files (λ t. plain.has_user t user.now ≡ true) }
    ensures within { result < length tree.now.users }
    ensures named { name_of tree.now.users result ≡ user.now }
{
    match tree.user_number(user) {
        Some(number) => number,
        None => unreachable!(),
    }
}
