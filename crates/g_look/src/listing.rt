//! The list of a disc's files.
ghost use Rattle.std.specs.Prelude.{◌≡◌, ◌⊎◌, ◌<◌, ◌++◌, Err, IfErr, IfOk, IfSome, OnOk, option_copied};
ghost use Rattle.std.specs.List.{flat_map};
ghost use Rattle.std.specs.Option.{ForSome, option_map};
ghost use Rattle.g_disc.specs.Disc.{ReadsByCause};
ghost use Rattle.g_dirs.specs.Directory.{Directory};
ghost use Rattle.g_dirs.specs.Image.{StandsFor};
ghost use Rattle.g_lines.specs.Lines.{ended, text_of};
ghost use Rattle.g_tree.specs.Records.{IsRecords, name_of};
ghost use Rattle.g_look.specs.FileLines.{disc_file_line};
ghost use Rattle.g_look.specs.Lists.{HasUser, IsListed, IsNobody, list_lines};
ghost use Rattle.g_look.specs.Looks.{IsOfList};
ghost use Rattle.g_look.specs.Numbers.{IsNobodyOf, asked_numbers, disc_line, lines_at, lines_listed};
ghost use Rattle.g_look.specs.Standing.{directory_in};

use crate::LookFault;
use crate::bytes::copy_at;
use crate::disc::see_directory;
use crate::file_text::{push_blocks, push_file, push_taped};
use crate::ordered::asked_numbers;
use crate::parts::push_told;
use g_base::NoMemory;
use g_copy::DiscCopy;
use g_dirs::{Dirs, FileCopy};
use g_disc::Disc;
use g_entry::{FileRec, UserRec};
use g_name::{Full, Text, User};
use g_tree::{Tree, full_of};
use std::alloc::Global;

/// A line for each file of the disc, or of this user: users by number, the files of a user by full name; and the number of files listed. The disc is
/// only read. `NoFilestore`: it represents no filestore; `NoUser`: the filestore has no such user; `DiscUnread`, `NoMemory`.
pub fn list<D: Disc>(alloc: Global, disc: &mut D, user: Option<&User>) -> Result<Text, LookFault>
    requires size { 2177 < (D.state disc.old).size }
    ensures text { ForSome (D.state disc.old).held (λ blocks. IfOk result (IsListed blocks (option_copied user.entry))) }
    ensures no_filestore { result ≡ Err LookFault.NoFilestore → ForSome (D.state disc.old).held
        (λ blocks. (d : Directory) → StandsFor blocks d → ⊥) }
    ensures no_user { result ≡ Err LookFault.NoUser → ForSome (D.state disc.old).held
        (λ blocks. IsNobody blocks (option_copied user.entry)) }
    ensures disc { ReadsByCause (result ≡ Err LookFault.DiscUnread) (D.state disc.old) (D.state disc.new) }
    ensures faults { IfErr result IsOfList }
{
    match see_directory(alloc, disc) {
        Ok(dirs) => directory_text(alloc, dirs, user),
        Err(fault) => Err(fault),
    }
}

/// The text of a list of a directory. `NoUser`, `NoMemory`.
fn directory_text(alloc: Global, dirs: Dirs, user: Option<&User>) -> Result<Text, LookFault>
    requires records { IsRecords dirs.users.items dirs.files.items }
    ensures text { IfOk result (λ text. text ≡ text_of (list_lines (directory_in dirs) (option_copied user.entry))) }
    ensures user { IfOk result (λ text. IfSome (option_copied user.entry) (HasUser dirs.users.items)) }
    ensures no_user { result ≡ Err LookFault.NoUser → IsNobodyOf dirs.users.items (option_copied user.entry) }
    ensures faults { IfErr result (λ e. (e ≡ LookFault.NoUser) ⊎ (e ≡ LookFault.NoMemory)) }
{
    let (tree, online) = match tree_of(alloc, dirs) {
        Ok(made) => made,
        Err(_) => return Err(LookFault::NoMemory),
    };
    let only = match asked_user(&tree, user) {
        Ok(only) => only,
        Err(fault) => return Err(fault),
    };
    match list_text(alloc, &tree, online.as_slice(), only) {
        Ok(text) => Ok(text),
        Err(_) => Err(LookFault::NoMemory),
    }
}

/// The number of the requested user, if one is requested. `NoUser`.
fn asked_user(tree: &Tree, user: Option<&User>) -> Result<Option<u8>, LookFault>
    ensures name { IfOk result (λ only. option_map (name_of tree.now.users) only ≡ option_copied user.entry) }
    ensures user { IfOk result (λ only. IfSome (option_copied user.entry) (HasUser tree.now.users)) }
    ensures no_user { result ≡ Err LookFault.NoUser → IsNobodyOf tree.now.users (option_copied user.entry) }
    ensures faults { IfErr result (λ e. e ≡ LookFault.NoUser) }
{
    match user {
        Some(name) => match tree.user(name) {
            Some(user) => Ok(Some(user.number)),
            None => Err(LookFault::NoUser),
        },
        None => Ok(None),
    }
}

/// The records of a directory as a tree, and the places of its files on the disc.
pub(crate) fn tree_of(alloc: Global, dirs: Dirs) -> Result<(Tree, Vec<FileCopy>), NoMemory>
    requires records { IsRecords dirs.users.items dirs.files.items }
    ensures users { IfOk result (λ made. made.0.users ≡ dirs.users.items) }
    ensures files { IfOk result (λ made. made.0.files ≡ dirs.files.items) }
    ensures online { IfOk result (λ made. made.1.items ≡ dirs.online.items) }
{
    let Dirs {
        users,
        files,
        online,
        ..
    } = dirs;
    match Tree::from_records(alloc, users, files) {
        Ok(tree) => Ok((tree, online)),
        Err(_) => Err(NoMemory),
    }
}

/// The lines of the files of all users, or of one, and the last line.
fn list_text(
    alloc: Global,
    tree: &Tree,
    online: &[FileCopy],
    only: Option<u8>,
) -> Result<Text, NoMemory>
    ensures { IfOk result (λ text. text ≡ text_of (lines_listed tree.now.users tree.now.files online.now
        (asked_numbers tree.now.users tree.now.files (option_map (name_of tree.now.users) only)))) }
{
    let numbers = asked_numbers(alloc, tree, only)?;
    let mut text = Text::new(alloc);
    push_lines(&mut text, tree, online, numbers.as_slice())?;
    push_told(&mut text, b"LISTED ", numbers.len() as u64)?;
    text.push(b'\n')?;
    Ok(text)
}

/// Appends the lines of the files of these numbers.
fn push_lines(
    text: &mut Text,
    tree: &Tree,
    online: &[FileCopy],
    numbers: &[u16],
) -> Result<(), NoMemory>
    ensures { OnOk result (text.new ≡ text.old
        ++ text_of (flat_map (lines_at (disc_line tree.now.users online.now) tree.now.files) numbers.now)) }
{
    for number in numbers {
        match push_numbered(text, tree, online, *number) {
            Ok(()) => {}
            Err(fault) => return Err(fault),
        }
    }
    Ok(())
}

/// Appends the line of the file of this number, if there is one.
fn push_numbered(
    text: &mut Text,
    tree: &Tree,
    online: &[FileCopy],
    number: u16,
) -> Result<(), NoMemory>
    ensures { OnOk result (text.new ≡ text.old
        ++ text_of (lines_at (disc_line tree.now.users online.now) tree.now.files number)) }
{
    match tree.file_at(number) {
        Some(file) => {
            let full = full_of(tree.users(), file);
            push_line(
                text,
                &full,
                tree.users(),
                file,
                &copy_at(online, file.number),
            )
        }
        None => Ok(()),
    }
}

/// Appends the line of a file.
fn push_line(
    text: &mut Text,
    full: &Full,
    users: &[UserRec],
    file: &FileRec,
    copy: &Option<DiscCopy>,
) -> Result<(), NoMemory>
    ensures { OnOk result (text.new ≡ text.old ++ ended (disc_file_line full.now users.now copy.now file.now)) }
{
    push_file(text, full, users, file)?;
    push_blocks(text, copy)?;
    push_taped(text, &file.tape)?;
    text.push(b'\n')
}
