//! The action of each verb, from parameters that are good. `params` is their text.
ghost use Rattle.std.specs.Prelude.{◌≡◌, [], ◌∷◌, drop};
ghost use Rattle.g_lang.specs.LineReader.{params_read};
ghost use Rattle.g_verbs.specs.Forms as forms;
ghost use Rattle.g_verbs.specs.Forms.{AreGood};
ghost use Rattle.g_verbs.specs.VerbReader as how;
ghost use Rattle.g_verbs.specs.Verbs as verbs;
ghost use Rattle.g_verbs.specs.declared.form.Form.TheVariants as form;
ghost use Rattle.g_verbs.specs.declared.verb.Verb.TheVariants as verb;

use crate::Action;
use crate::values::{
    amount_at, budget_at, digit_at, file_at, letter_at, local_at, modes_from, money_if_at, unit_at,
    user_at, user_if_at,
};
use g_lang::{Param, Rest};
use g_name::{Local, Path, User};
use g_plain::BudgetKind;
use g_trap::Modes;

/// The file of a verb that takes exactly one file.
pub(crate) fn only_file(params: &[u8]) -> Path
    requires { AreGood (forms.just (form.File ∷ [])) (params_read params.now) }
    ensures { result ≡ how.file_of (how.param (params_read params.now) 0) }
{
    file_at(params, 0)
}

/// The files of a verb that takes exactly two files.
pub(crate) fn two_files(params: &[u8]) -> (Path, Path)
    requires { AreGood (forms.just (form.File ∷ form.File ∷ [])) (params_read params.now) }
    ensures from { result.0 ≡ how.file_of (how.param (params_read params.now) 0) }
    ensures to { result.1 ≡ how.file_of (how.param (params_read params.now) 1) }
{
    (file_at(params, 0), file_at(params, 1))
}

/// The file of RENAME and its new name.
pub(crate) fn file_and_local(params: &[u8]) -> (Path, Local)
    requires { AreGood (forms.just (form.File ∷ form.Local ∷ [])) (params_read params.now) }
    ensures file { result.0 ≡ how.file_of (how.param (params_read params.now) 0) }
    ensures to { result.1 ≡ how.local_of (how.param (params_read params.now) 1) }
{
    (file_at(params, 0), local_at(params, 1))
}

/// LISTDIR, which may name a user.
pub(crate) fn list_dir(params: &[u8]) -> Action
    requires { AreGood (verbs.verb_forms verb.ListDir) (params_read params.now) }
    ensures { result ≡ how.action_of verb.ListDir (params_read params.now) [] }
{
    Action::ListDir {
        user: user_if_at(params, 0),
    }
}

/// The file of TRAPGO and TRAPSTOP, the user and the modes.
pub(crate) fn file_user_modes(params: &[u8]) -> (Path, User, Modes)
    requires { AreGood (verbs.verb_forms verb.TrapGo) (params_read params.now) }
    ensures file { result.0 ≡ how.file_of (how.param (params_read params.now) 0) }
    ensures user { result.1 ≡ how.user_of (how.param (params_read params.now) 1) }
    ensures modes { result.2 ≡ how.modes_read (drop 2 (params_read params.now)) }
{
    (
        file_at(params, 0),
        user_at(params, 1),
        modes_from(params, 2),
    )
}

/// TRAPCHECK with its file, which may name a user.
pub(crate) fn trap_check(params: &[u8]) -> Action
    requires { AreGood (verbs.verb_forms verb.TrapCheck) (params_read params.now) }
    ensures { result ≡ how.action_of verb.TrapCheck (params_read params.now) [] }
{
    Action::TrapCheck {
        file: file_at(params, 0),
        user: user_if_at(params, 1),
    }
}

/// NEWUSER with its user, SPACE and TIME, which may have MONEY.
pub(crate) fn new_user(params: &[u8]) -> Action
    requires { AreGood (verbs.verb_forms verb.NewUser) (params_read params.now) }
    ensures { result ≡ how.action_of verb.NewUser (params_read params.now) [] }
{
    Action::NewUser {
        user: user_at(params, 0),
        space: amount_at(BudgetKind::Space, params, 1),
        time: amount_at(BudgetKind::Time, params, 2),
        money: money_if_at(params, 3),
    }
}

/// BUDGET with its user and an amount.
pub(crate) fn budget(params: &[u8]) -> Action
    requires { AreGood (verbs.verb_forms verb.Budget) (params_read params.now) }
    ensures { result ≡ how.action_of verb.Budget (params_read params.now) [] }
{
    let (kind, amount) = budget_at(params, 1);
    Action::Budget {
        user: user_at(params, 0),
        kind,
        amount,
    }
}

/// ENTER with its number.
pub(crate) fn enter(params: &[u8]) -> Action
    requires { AreGood (verbs.verb_forms verb.Enter) (params_read params.now) }
    ensures { result ≡ how.action_of verb.Enter (params_read params.now) [] }
{
    Action::Enter {
        n: digit_at(params, 0),
    }
}

/// ASSIGN with its unit and a file.
pub(crate) fn assign(params: &[u8]) -> Action
    requires { AreGood (verbs.verb_forms verb.Assign) (params_read params.now) }
    ensures { result ≡ how.action_of verb.Assign (params_read params.now) [] }
{
    Action::Assign {
        unit: unit_at(params, 0),
        file: file_at(params, 1),
    }
}

/// RELEASE with its unit.
pub(crate) fn release(params: &[u8]) -> Action
    requires { AreGood (verbs.verb_forms verb.Release) (params_read params.now) }
    ensures { result ≡ how.action_of verb.Release (params_read params.now) [] }
{
    Action::Release {
        unit: unit_at(params, 0),
    }
}

/// SETPARAM with its letter, which may have a text.
pub(crate) fn set_param(params: Rest) -> Action
    requires { AreGood (verbs.verb_forms verb.SetParam) (params_read params) }
    ensures { result ≡ how.action_of verb.SetParam (params_read params) [] }
{
    let letter = letter_at(params.as_slice(), 0);
    let text = Param::new(params, 1);
    Action::SetParam { letter, text }
}
