//! The values of parameters that have their forms. `params` is their text.
ghost use Rattle.std.specs.Prelude.{◌≡◌, ◌<◌, drop, length};
ghost use Rattle.g_lang.specs.LineReader.{params_read};
ghost use Rattle.g_plain.specs.declared.calls.BudgetKind.TheVariants as kind;
ghost use Rattle.g_verbs.specs.VerbReader as how;
ghost use Rattle.g_verbs.specs.Tables.{IsThere};
ghost use Rattle.g_verbs.specs.declared.form.Form.TheVariants as form;

use crate::parameter;
use g_lang::{count_params, param_at};
use g_name::{Local, Path, User};
use g_peri::Unit;
use g_plain::BudgetKind;
use g_trap::{Mode, Modes};

/// The text of a parameter.
#[tactic(auto, using(crate::proofs::PlaceLemmas::is_param, crate::proofs::PlaceLemmas::no_param))]
pub(crate) fn text_at(params: &[u8], place: usize) -> &[u8]
    requires { place < length (params_read params.now) }
    ensures { result.now ≡ how.param (params_read params.now) place }
{
    match param_at(params, place) {
        Some(param) => param,
        None => unreachable!(),
    }
}

/// The file that a parameter names.
pub(crate) fn file_at(params: &[u8], place: usize) -> Path
    requires { IsThere form.File (params_read params.now) place }
    ensures { result ≡ how.file_of (how.param (params_read params.now) place) }
{
    parameter::file(text_at(params, place)).unwrap()
}

/// The user that a parameter names.
pub(crate) fn user_at(params: &[u8], place: usize) -> User
    requires { IsThere form.User (params_read params.now) place }
    ensures { result ≡ how.user_of (how.param (params_read params.now) place) }
{
    parameter::user(text_at(params, place)).unwrap()
}

/// The user that a parameter names, if there is one.
pub(crate) fn user_if_at(params: &[u8], place: usize) -> Option<User>
    requires { place < length (params_read params.now) → IsThere form.User (params_read params.now) place }
    ensures { result ≡ how.user_at (params_read params.now) place }
{
    if place < count_params(params) {
        Some(user_at(params, place))
    } else {
        None
    }
}

/// The local name that a parameter is.
pub(crate) fn local_at(params: &[u8], place: usize) -> Local
    requires { IsThere form.Local (params_read params.now) place }
    ensures { result ≡ how.local_of (how.param (params_read params.now) place) }
{
    parameter::local(text_at(params, place)).unwrap()
}

/// The amount of a budget that a parameter names.
pub(crate) fn amount_at(kind: BudgetKind, params: &[u8], place: usize) -> u64
    requires { IsThere (form.Amount kind) (params_read params.now) place }
    ensures { result ≡ how.amount_of kind (how.param (params_read params.now) place) }
{
    parameter::amount(kind, text_at(params, place)).unwrap()
}

/// The amount of MONEY that a parameter names, if there is one.
pub(crate) fn money_if_at(params: &[u8], place: usize) -> Option<u64>
    requires { place < length (params_read params.now) → IsThere (form.Amount kind.Money) (params_read params.now) place }
    ensures { result ≡ how.money_at (params_read params.now) place }
{
    if place < count_params(params) {
        Some(amount_at(BudgetKind::Money, params, place))
    } else {
        None
    }
}

/// The budget that a parameter names, and its amount.
pub(crate) fn budget_at(params: &[u8], place: usize) -> (BudgetKind, u64)
    requires { IsThere form.AnyAmount (params_read params.now) place }
    ensures { result ≡ how.budget_of (how.param (params_read params.now) place) }
{
    parameter::budget(text_at(params, place)).unwrap()
}

/// The unit that a parameter names.
pub(crate) fn unit_at(params: &[u8], place: usize) -> Unit
    requires { IsThere form.Unit (params_read params.now) place }
    ensures { result ≡ how.unit_of (how.param (params_read params.now) place) }
{
    parameter::unit(text_at(params, place)).unwrap()
}

/// The digit that a parameter is.
pub(crate) fn digit_at(params: &[u8], place: usize) -> u64
    requires { IsThere form.Digit (params_read params.now) place }
    ensures { result ≡ how.digit_of (how.param (params_read params.now) place) }
{
    parameter::digit(text_at(params, place)).unwrap()
}

/// The letter that a parameter is.
pub(crate) fn letter_at(params: &[u8], place: usize) -> u8
    requires { IsThere form.Letter (params_read params.now) place }
    ensures { result ≡ how.letter_of (how.param (params_read params.now) place) }
{
    parameter::letter(text_at(params, place)).unwrap()
}

/// All the modes that the parameters from a place on name.
#[tactic(auto, using(crate::proofs::PlaceLemmas::more_modes, crate::proofs::PlaceLemmas::no_modes))]
pub(crate) fn modes_from(params: &[u8], place: usize) -> Modes
    ensures { result ≡ how.modes_read (drop place (params_read params.now)) }
{
    if place < count_params(params) {
        let mode = parameter::mode(text_at(params, place));
        with_mode(mode, modes_from(params, place + 1))
    } else {
        Modes::none()
    }
}

/// These modes and one more, if there is one.
fn with_mode(mode: Option<Mode>, modes: Modes) -> Modes
    ensures { result ≡ how.with_mode mode modes }
{
    match mode {
        Some(mode) => Modes::only(mode).union(modes),
        None => modes,
    }
}
