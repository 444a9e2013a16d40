//! Why a call is refused: the checks of each call, in order. The name that its path gives is searched for once and
//! passed on.
ghost use Rattle.std.specs.Prelude.{◌≡◌, ℕ, List, [], ◌∷◌, None, is_some, true};
ghost use Rattle.g_plain.specs.declared.calls.BudgetKind.{BudgetKind};
ghost use Rattle.g_name.specs.Order.{same_text};
ghost use Rattle.g_plain.specs.PlainTree as plain;
ghost use Rattle.g_plain.specs.PlainStep.{checks, first_fault, fault_in, fault_of};
ghost use Rattle.g_plain.specs.PlainStep.{input_checks, size_checks, spent_check};
ghost use Rattle.g_plain.specs.Grants.{fault_or, granted_by, granted_of, name_granted, name_in};

use crate::names::with_local;
use crate::{NamedFile, Questions, StoreCall, StoreFault};
use g_base::blocks_for;
use g_name::{Full, Local, Path, Text, User};
use g_trap::{Mode, Modes};

/// The full name of the file that a call names.
#[derive(Drop)]
pub enum CallName {
    /// The call names no file.
    Nothing,
    /// The name of a file for input.
    Input(Full),
    /// The name of a file for output, of `Put`.
    Output(Full),
}

/// What a granted call gets: the full name of its file, and the number of the file that has it.
#[derive(Drop)]
pub struct GrantedName {
    pub name: CallName,
    /// `None` if the call names no file, or if no file has the name.
    pub number: Option<u16>,
}

/// The fault of a call, or `None` if it is granted. The first check is that the caller exists: `NoUser`.
pub fn refusal<Q: Questions>(questions: &Q, who: &User, call: &StoreCall) -> Option<StoreFault>
    ensures { result ≡ fault_of (Q.tree questions.now) who.now call.now }
{
    match granted_name(questions, who, call) {
        Ok(_name) => None,
        Err(fault) => Some(fault),
    }
}

/// The full name of a granted call's file, with the file's number; otherwise the call's fault, as `refusal` returns it.
pub fn granted_name<Q: Questions>(
    questions: &Q,
    who: &User,
    call: &StoreCall,
) -> Result<GrantedName, StoreFault>
    ensures { result ≡ granted_of (Q.numbers questions.now) (Q.tree questions.now) who.now call.now }
{
    if !questions.has_user(who) {
        return Err(StoreFault::NoUser);
    }
    match call {
        StoreCall::NewUser { user, .. } => nameless(new_user(questions, user)),
        StoreCall::Budget { user, .. } => nameless(budget(questions, who, user)),
        StoreCall::List { user } => nameless(list(questions, who, user)),
        StoreCall::Put { path, bytes } => output(questions, who, path, bytes),
        StoreCall::Append { path, .. } => input(questions, who, path, call),
        StoreCall::Fetch { path, .. } => input(questions, who, path, call),
        StoreCall::Erase { path } => input(questions, who, path, call),
        StoreCall::Rename { path, .. } => input(questions, who, path, call),
        StoreCall::TrapGo { path, .. } => input(questions, who, path, call),
        StoreCall::TrapStop { path, .. } => input(questions, who, path, call),
        StoreCall::TrapCheck { path, .. } => input(questions, who, path, call),
        StoreCall::Retrieve { path } => input(questions, who, path, call),
    }
}

/// The grant of a call that names no file.
fn nameless(fault: Option<StoreFault>) -> Result<GrantedName, StoreFault>
    ensures { result ≡ fault_or fault (record { name = CallName.Nothing; number = None }) }
{
    match fault {
        Some(fault) => Err(fault),
        None => Ok(GrantedName {
            name: CallName::Nothing,
            number: None,
        }),
    }
}

/// The grant of a call that names a file for input by this path. The found file is borrowed until all checks are done.
fn input<Q: Questions>(
    questions: &Q,
    who: &User,
    path: &Path,
    call: &StoreCall,
) -> Result<GrantedName, StoreFault>
    requires caller { plain.has_user (Q.tree questions.now) who.now ≡ true }
    requires path { let t = Q.tree questions.now in
        CallName.Input (plain.input_name t who.now path.now) ≡ name_in t who.now call.now }
    ensures { let t = Q.tree questions.now in
        result ≡ granted_by (checks t who.now call.now)
        (name_granted (Q.numbers questions.now) (name_in t who.now call.now)) }
{
    let file = questions.input(who, path);
    match input_fault(questions, who, call, &file) {
        Some(fault) => Err(fault),
        None => Ok(GrantedName {
            name: CallName::Input(file.full),
            number: file.number,
        }),
    }
}

/// The grant of a `Put`.
fn output<Q: Questions>(
    questions: &Q,
    who: &User,
    path: &Path,
    bytes: &Text,
) -> Result<GrantedName, StoreFault>
    requires { plain.has_user (Q.tree questions.now) who.now ≡ true }
    ensures { let t = Q.tree questions.now in
        let call = StoreCall.Put path.now bytes.now in
        result ≡ granted_by (checks t who.now call)
        (name_granted (Q.numbers questions.now) (name_in t who.now call)) }
{
    let file = questions.output(who, path);
    match put_fault(questions, who, path, bytes, &file) {
        Some(fault) => Err(fault),
        None => Ok(GrantedName {
            name: CallName::Output(file.full),
            number: file.number,
        }),
    }
}

/// The fault of a call that names this file for input.
fn input_fault<Q: Questions>(
    questions: &Q,
    who: &User,
    call: &StoreCall,
    file: &NamedFile,
) -> Option<StoreFault>
    requires caller { plain.has_user (Q.tree questions.now) who.now ≡ true }
    requires named { CallName.Input file.now.full ≡ name_in (Q.tree questions.now) who.now call.now }
    requires numbered { file.now.number ≡ Q.numbers questions.now file.now.full }
    requires there { is_some file.now.number ≡ plain.has_file (Q.tree questions.now) file.now.full }
    ensures { result ≡ fault_in (Q.tree questions.now) who.now call.now }
{
    match call {
        StoreCall::Append { path, bytes } => append(questions, who, path, bytes, file),
        StoreCall::Fetch { path, mode } => closed_to(questions, who, path, *mode, file),
        StoreCall::Erase { path } => closed_to(questions, who, path, Mode::Erase, file),
        StoreCall::Rename { path, to } => rename(questions, who, path, to, file),
        StoreCall::TrapGo { path, user, modes } => {
            trap_go(questions, who, path, user, *modes, file)
        }
        StoreCall::TrapStop { path, user, .. } => trap_stop(questions, who, path, user, file),
        StoreCall::TrapCheck { path, user } => trap_check(questions, who, path, user, file),
        StoreCall::Retrieve { path } => closed_to(questions, who, path, Mode::Read, file),
        _ => unreachable!(),
    }
}

/// The name must be new, and there must be fewer than 63 users.
fn new_user<Q: Questions>(questions: &Q, user: &User) -> Option<StoreFault>
    ensures { (who : List ℕ) (space time money : ℕ) → result
        ≡ fault_in (Q.tree questions.now) who (StoreCall.NewUser user.now space time money) }
{
    if questions.has_user(user) {
        Some(StoreFault::Exists)
    } else if questions.users() >= 63 {
        Some(StoreFault::UsersFull)
    } else {
        None
    }
}

/// The user must exist, and the caller must be the superior.
fn budget<Q: Questions>(questions: &Q, who: &User, user: &User) -> Option<StoreFault>
    requires { plain.has_user (Q.tree questions.now) who.now ≡ true }
    ensures { (kind : BudgetKind) (amount : ℕ) → result
        ≡ fault_in (Q.tree questions.now) who.now (StoreCall.Budget user.now kind amount) }
{
    if !questions.has_user(user) {
        Some(StoreFault::NoUser)
    } else if !questions.is_superior(who, user) {
        Some(StoreFault::NotOwner)
    } else {
        None
    }
}

/// The user must exist, and the caller must be that user or the superior.
fn list<Q: Questions>(questions: &Q, who: &User, user: &User) -> Option<StoreFault>
    requires { plain.has_user (Q.tree questions.now) who.now ≡ true }
    ensures { result ≡ fault_in (Q.tree questions.now) who.now (StoreCall.List user.now) }
{
    if !questions.has_user(user) {
        Some(StoreFault::NoUser)
    } else if *user != *who && !questions.is_superior(who, user) {
        Some(StoreFault::NotOwner)
    } else {
        None
    }
}

/// The fault of a `Put` whose path gives this name for output. The owner must exist, and a generation must be left; the
/// file must be open to the caller, or new and the caller's own; the size must be within the limits, and a file and a
/// stamp must be left.
fn put_fault<Q: Questions>(
    questions: &Q,
    who: &User,
    path: &Path,
    bytes: &Text,
    file: &NamedFile,
) -> Option<StoreFault>
    requires caller { plain.has_user (Q.tree questions.now) who.now ≡ true }
    requires named { file.now.full ≡ plain.output_name (Q.tree questions.now) who.now path.now }
    requires numbered { file.now.number ≡ Q.numbers questions.now file.now.full }
    requires there { is_some file.now.number ≡ plain.has_file (Q.tree questions.now) file.now.full }
    ensures { result ≡ fault_in (Q.tree questions.now) who.now (StoreCall.Put path.now bytes.now) }
{
    if !has_owner(questions, who, path, &file.full) {
        return Some(StoreFault::NoUser);
    }
    // A path without a generation gives the one after the greatest.
    if path.generation.is_none() && file.full.generation == 4096 {
        return Some(StoreFault::NoGeneration);
    }
    let there = file.number.is_some();
    if there && !questions.modes_of(file, who).contains(Mode::Write) {
        return Some(StoreFault::Trapped(Mode::Write));
    }
    if !there && !is_own(who, path, &file.full) {
        return Some(StoreFault::NotOwner);
    }
    let over = over_size(questions, file, bytes.as_slice().len() as u64);
    if over.is_some() {
        return over;
    }
    if !there && questions.files() >= 1024 {
        return Some(StoreFault::DirectoryFull);
    }
    spent(questions)
}

/// The file must be open to the caller, the size within the limits, and a stamp must be left.
fn append<Q: Questions>(
    questions: &Q,
    who: &User,
    path: &Path,
    bytes: &Text,
    file: &NamedFile,
) -> Option<StoreFault>
    requires caller { plain.has_user (Q.tree questions.now) who.now ≡ true }
    requires named { file.now.full ≡ plain.input_name (Q.tree questions.now) who.now path.now }
    requires numbered { file.now.number ≡ Q.numbers questions.now file.now.full }
    requires there { is_some file.now.number ≡ plain.has_file (Q.tree questions.now) file.now.full }
    ensures { result
        ≡ fault_in (Q.tree questions.now) who.now (StoreCall.Append path.now bytes.now) }
{
    let closed = closed_to(questions, who, path, Mode::Append, file);
    if closed.is_some() {
        return closed;
    }
    let size = u64::from(questions.len_of(file)) + bytes.as_slice().len() as u64;
    let over = over_size(questions, file, size);
    if over.is_some() {
        return over;
    }
    spent(questions)
}

/// The file must be the caller's, and no file may have its new name.
fn rename<Q: Questions>(
    questions: &Q,
    who: &User,
    path: &Path,
    to: &Local,
    file: &NamedFile,
) -> Option<StoreFault>
    requires caller { plain.has_user (Q.tree questions.now) who.now ≡ true }
    requires named { file.now.full ≡ plain.input_name (Q.tree questions.now) who.now path.now }
    requires numbered { file.now.number ≡ Q.numbers questions.now file.now.full }
    requires there { is_some file.now.number ≡ plain.has_file (Q.tree questions.now) file.now.full }
    ensures { result ≡ fault_in (Q.tree questions.now) who.now (StoreCall.Rename path.now to.now) }
{
    let absent = missing(questions, who, path, file);
    if absent.is_some() {
        return absent;
    }
    if !is_own(who, path, &file.full) {
        Some(StoreFault::NotOwner)
    } else if questions.has_file(&with_local(&file.full, to)) {
        Some(StoreFault::Exists)
    } else {
        None
    }
}

/// The checks of closing modes; in addition, at most eight users besides the owner may be trapped.
fn trap_go<Q: Questions>(
    questions: &Q,
    who: &User,
    path: &Path,
    user: &User,
    modes: Modes,
    file: &NamedFile,
) -> Option<StoreFault>
    requires caller { plain.has_user (Q.tree questions.now) who.now ≡ true }
    requires named { file.now.full ≡ plain.input_name (Q.tree questions.now) who.now path.now }
    requires numbered { file.now.number ≡ Q.numbers questions.now file.now.full }
    requires there { is_some file.now.number ≡ plain.has_file (Q.tree questions.now) file.now.full }
    ensures { result
        ≡ fault_in (Q.tree questions.now) who.now (StoreCall.TrapGo path.now user.now modes) }
{
    let refused = trap_stop(questions, who, path, user, file);
    if refused.is_some() {
        return refused;
    }
    if questions.is_ninth(file, user, modes) {
        Some(StoreFault::TrapsFull)
    } else {
        None
    }
}

/// The file and the user must exist, and the file must be the caller's.
fn trap_stop<Q: Questions>(
    questions: &Q,
    who: &User,
    path: &Path,
    user: &User,
    file: &NamedFile,
) -> Option<StoreFault>
    requires caller { plain.has_user (Q.tree questions.now) who.now ≡ true }
    requires named { file.now.full ≡ plain.input_name (Q.tree questions.now) who.now path.now }
    requires numbered { file.now.number ≡ Q.numbers questions.now file.now.full }
    requires there { is_some file.now.number ≡ plain.has_file (Q.tree questions.now) file.now.full }
    ensures { (modes : ℕ) → result
        ≡ fault_in (Q.tree questions.now) who.now (StoreCall.TrapStop path.now user.now modes) }
{
    let absent = missing(questions, who, path, file);
    if absent.is_some() {
        return absent;
    }
    if !questions.has_user(user) {
        Some(StoreFault::NoUser)
    } else if !is_own(who, path, &file.full) {
        Some(StoreFault::NotOwner)
    } else {
        None
    }
}

/// The file and the user must exist, and the caller must be the owner or that user.
fn trap_check<Q: Questions>(
    questions: &Q,
    who: &User,
    path: &Path,
    user: &User,
    file: &NamedFile,
) -> Option<StoreFault>
    requires caller { plain.has_user (Q.tree questions.now) who.now ≡ true }
    requires named { file.now.full ≡ plain.input_name (Q.tree questions.now) who.now path.now }
    requires numbered { file.now.number ≡ Q.numbers questions.now file.now.full }
    requires there { is_some file.now.number ≡ plain.has_file (Q.tree questions.now) file.now.full }
    ensures { result
        ≡ fault_in (Q.tree questions.now) who.now (StoreCall.TrapCheck path.now user.now) }
{
    let absent = missing(questions, who, path, file);
    if absent.is_some() {
        return absent;
    }
    if !questions.has_user(user) {
        Some(StoreFault::NoUser)
    } else if !is_own(who, path, &file.full) && *who != *user {
        Some(StoreFault::NotOwner)
    } else {
        None
    }
}

/// Whether the owner of a file of this name exists. The caller does, and isn't searched for again.
fn has_owner<Q: Questions>(questions: &Q, who: &User, path: &Path, full: &Full) -> bool
    requires caller { plain.has_user (Q.tree questions.now) who.now ≡ true }
    requires named { full.now.user ≡ plain.owner_of who.now path.now }
    ensures { result ≡ plain.has_user (Q.tree questions.now) full.now.user }
{
    is_own(who, path, full) || questions.has_user(&full.user)
}

/// Whether the file of a path is the caller's. It is if the path names no user.
fn is_own(who: &User, path: &Path, full: &Full) -> bool
    requires { full.now.user ≡ plain.owner_of who.now path.now }
    ensures { result ≡ same_text who.now full.now.user }
{
    match &path.user {
        Some(_user) => *who == full.user,
        None => true,
    }
}

/// The user in the name of a file for input must exist, and the file.
fn missing<Q: Questions>(
    questions: &Q,
    who: &User,
    path: &Path,
    file: &NamedFile,
) -> Option<StoreFault>
    requires caller { plain.has_user (Q.tree questions.now) who.now ≡ true }
    requires named { file.now.full ≡ plain.input_name (Q.tree questions.now) who.now path.now }
    requires there { is_some file.now.number ≡ plain.has_file (Q.tree questions.now) file.now.full }
    ensures { result ≡ first_fault (input_checks (Q.tree questions.now) who.now path.now) }
{
    if !has_owner(questions, who, path, &file.full) {
        Some(StoreFault::NoUser)
    } else if file.number.is_none() {
        Some(StoreFault::NoFile)
    } else {
        None
    }
}

/// The file must exist, and be open to the caller in this mode.
fn closed_to<Q: Questions>(
    questions: &Q,
    who: &User,
    path: &Path,
    mode: Mode,
    file: &NamedFile,
) -> Option<StoreFault>
    requires caller { plain.has_user (Q.tree questions.now) who.now ≡ true }
    requires named { file.now.full ≡ plain.input_name (Q.tree questions.now) who.now path.now }
    requires numbered { file.now.number ≡ Q.numbers questions.now file.now.full }
    requires there { is_some file.now.number ≡ plain.has_file (Q.tree questions.now) file.now.full }
    ensures { result ≡ fault_in (Q.tree questions.now) who.now (StoreCall.Fetch path.now mode) }
{
    let absent = missing(questions, who, path, file);
    if absent.is_some() {
        return absent;
    }
    if questions.modes_of(file, who).contains(mode) {
        None
    } else {
        Some(StoreFault::Trapped(mode))
    }
}

/// This number of bytes must be within the limit of a file, and its blocks within the owner's SPACE.
fn over_size<Q: Questions>(questions: &Q, file: &NamedFile, size: u64) -> Option<StoreFault>
    requires owner { plain.has_user (Q.tree questions.now) file.now.full.user ≡ true }
    requires numbered { file.now.number ≡ Q.numbers questions.now file.now.full }
    ensures { result ≡ first_fault (size_checks (Q.tree questions.now) file.now.full size) }
{
    if size > 65536 {
        return Some(StoreFault::TooLong(size));
    }
    let need = blocks_for(size as u32);
    let left = questions.space_left(file);
    if need > left {
        Some(StoreFault::OverSpace { need, left })
    } else {
        None
    }
}

/// A new version needs a stamp.
fn spent<Q: Questions>(questions: &Q) -> Option<StoreFault>
    ensures { result ≡ first_fault (spent_check (Q.tree questions.now) ∷ []) }
{
    if questions.stamps_spent() {
        Some(StoreFault::CountersSpent)
    } else {
        None
    }
}
