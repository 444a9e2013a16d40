//! Reading a verb and its parameters.
ghost use Rattle.std.specs.Prelude.{◌≡◌, ◌∷◌, ℕ, [], true, List, IfOk, IfSome, MatchOption};
ghost use Rattle.g_lang.specs.LineReader.{params_read};
ghost use Rattle.g_verbs.specs.Forms.{AreGood, just};
ghost use Rattle.g_verbs.specs.VerbReader as how;
ghost use Rattle.g_verbs.specs.Tables.{forms_said, is_display, is_of_one_file, is_of_two_files, is_rename};
ghost use Rattle.g_verbs.specs.Verbs as verbs;
ghost use Rattle.g_verbs.specs.declared.form.Form.TheVariants as form;
ghost use Rattle.g_verbs.specs.declared.verb.Verb.TheVariants as verb;

use crate::verb::macro_forms;
use crate::{Action, Forms, Verb, VerbFault, asked, parameter};
use g_lang::{Params, Rest, only_param, two_params};
use g_name::{Local, Path};

/// The action that a verb requests with the parameters in a text (`docs/DEFINITIONS.md`, "g_verbs"); the text is unchanged, from the first parameter
/// on.
///
/// `BadParameter` is returned if and only if a parameter is bad. A name that is no verb's is that of a macro, which isn't searched here. Allocates
/// nothing.
pub fn read_verb(name: &Local, rest: Rest) -> Result<Action, VerbFault>
    ensures grammar { verbs.Reads name.now (params_read rest) rest result }
    ensures one { verbs.IsActionRead (how.action_read name.now (params_read rest) rest) result }
    ensures sound { IfOk result verbs.IsSound }
{
    let verb = Verb::of(name.as_slice());
    read_known(verb, name, rest)
}

/// The same if the verb of the name is known already.
pub fn read_known(verb: Option<Verb>, name: &Local, rest: Rest) -> Result<Action, VerbFault>
    requires { verb ≡ verbs.verb_of name.now }
    ensures grammar { verbs.Reads name.now (params_read rest) rest result }
    ensures one { verbs.IsActionRead (how.action_read name.now (params_read rest) rest) result }
    ensures sound { IfOk result verbs.IsSound }
{
    // Establishes that the name is a word.
    let _word = name.as_slice();
    read_by(verb, name, rest)
}

/// The same. Large values are built in functions of their own, so that no verb pays for those of others.
fn read_by(verb: Option<Verb>, name: &Local, rest: Rest) -> Result<Action, VerbFault>
    requires { verb ≡ verbs.verb_of name.now }
    ensures { verbs.IsActionRead (how.action_read name.now (params_read rest) rest) result }
{
    // Establishes that the name is a word.
    let _word = name.as_slice();
    if is_display(verb) && !rest.as_slice().is_empty() {
        return Ok(Action::Display { text: rest });
    }
    if is_of_one_file(verb) {
        return read_file(verb, name, rest);
    }
    if is_of_two_files(verb) {
        return read_files(verb, name, rest);
    }
    if is_rename(verb) {
        return read_rename(verb, name, rest);
    }
    read_from(verb, name, rest)
}

/// The same for a verb that takes exactly one file.
fn read_file(verb: Option<Verb>, name: &Local, rest: Rest) -> Result<Action, VerbFault>
    requires verb { verb ≡ verbs.verb_of name.now }
    requires kind { is_of_one_file verb ≡ true }
    ensures { verbs.IsActionRead (how.action_read name.now (params_read rest) rest) result }
{
    // Establishes that the name is a word.
    let _word = name.as_slice();
    if let Some(file) = only_file(rest.as_slice()) {
        return Ok(of_file(verb, file));
    }
    read_from(verb, name, rest)
}

/// The same for a verb that takes exactly two files.
fn read_files(verb: Option<Verb>, name: &Local, rest: Rest) -> Result<Action, VerbFault>
    requires verb { verb ≡ verbs.verb_of name.now }
    requires kind { is_of_two_files verb ≡ true }
    ensures { verbs.IsActionRead (how.action_read name.now (params_read rest) rest) result }
{
    // Establishes that the name is a word.
    let _word = name.as_slice();
    if let Some(both) = two_files(rest.as_slice()) {
        return Ok(of_two_files(verb, both));
    }
    read_from(verb, name, rest)
}

/// The same for RENAME.
fn read_rename(verb: Option<Verb>, name: &Local, rest: Rest) -> Result<Action, VerbFault>
    requires verb { verb ≡ verbs.verb_of name.now }
    requires kind { is_rename verb ≡ true }
    ensures { verbs.IsActionRead (how.action_read name.now (params_read rest) rest) result }
{
    // Establishes that the name is a word.
    let _word = name.as_slice();
    if let Some(both) = file_and_local(rest.as_slice()) {
        return Ok(rename(both));
    }
    read_from(verb, name, rest)
}

/// The same for any verb; checks its parameters one by one.
fn read_from(verb: Option<Verb>, name: &Local, rest: Rest) -> Result<Action, VerbFault>
    requires { verb ≡ verbs.verb_of name.now }
    ensures { verbs.IsActionRead (how.action_read name.now (params_read rest) rest) result }
{
    // Establishes that the name is a word.
    let _word = name.as_slice();
    let forms = forms_of(verb);
    if let Some(index) = forms.first_wrong(rest.as_slice()) {
        return Err(VerbFault::BadParameter(index));
    }
    Ok(asked_by(verb, name, rest))
}

/// Whether a verb is DISPLAY.
fn is_display(verb: Option<Verb>) -> bool
    ensures { result ≡ is_display verb }
{
    match verb {
        Some(Verb::Display) => true,
        _ => false,
    }
}

/// Whether a verb takes exactly one file.
fn is_of_one_file(verb: Option<Verb>) -> bool
    ensures { result ≡ is_of_one_file verb }
{
    match verb {
        Some(Verb::Input | Verb::Erase | Verb::ListFile | Verb::Retrieve | Verb::Load) => true,
        _ => false,
    }
}

/// The file that the only parameter in a text names, if there is exactly one; a verb of one file requires it. Allocates nothing.
pub fn only_file(rest: &[u8]) -> Option<Path>
    ensures { MatchOption result (AreGood (just (form.File ∷ [])) (params_read rest.now) → ⊥)
        (λ path. AreGood (just (form.File ∷ [])) (params_read rest.now)
        × (path ≡ how.file_of (how.param (params_read rest.now) 0))) }
{
    match only_param(rest) {
        Some(param) => parameter::file(param),
        None => None,
    }
}

/// The action of a verb of one file with this file.
fn of_file(verb: Option<Verb>, file: Path) -> Action
    requires { is_of_one_file verb ≡ true }
    ensures { (name rest : List ℕ) (params : List (List ℕ)) → file ≡ how.file_of (how.param params 0)
        → result ≡ how.asked verb name params rest }
{
    match verb {
        Some(Verb::Input) => Action::Input { file },
        Some(Verb::Erase) => Action::Erase { file },
        Some(Verb::ListFile) => Action::ListFile { file },
        Some(Verb::Retrieve) => Action::Retrieve { file },
        Some(Verb::Load) => Action::Load { file },
        _ => unreachable!(),
    }
}

/// Whether a verb takes exactly two files.
fn is_of_two_files(verb: Option<Verb>) -> bool
    ensures { result ≡ is_of_two_files verb }
{
    match verb {
        Some(Verb::Copy | Verb::Append | Verb::Plan) => true,
        _ => false,
    }
}

/// The files that both parameters name, if there are two.
fn two_files(rest: &[u8]) -> Option<(Path, Path)>
    ensures { IfSome result (λ both. AreGood (just (form.File ∷ form.File ∷ [])) (params_read rest.now)
        × (both.0 ≡ how.file_of (how.param (params_read rest.now) 0))
        × (both.1 ≡ how.file_of (how.param (params_read rest.now) 1))) }
{
    match two_params(rest) {
        Some(both) => match parameter::file(both.0) {
            Some(from) => match parameter::file(both.1) {
                Some(to) => Some((from, to)),
                None => None,
            },
            None => None,
        },
        None => None,
    }
}

/// The action of a verb of two files with these files.
fn of_two_files(verb: Option<Verb>, files: (Path, Path)) -> Action
    requires { is_of_two_files verb ≡ true }
    ensures { (name rest : List ℕ) (params : List (List ℕ)) → files.0 ≡ how.file_of (how.param params 0)
        → files.1 ≡ how.file_of (how.param params 1) → result ≡ how.asked verb name params rest }
{
    let (from, to) = files;
    match verb {
        Some(Verb::Copy) => Action::Copy { from, to },
        Some(Verb::Append) => Action::Append { from, to },
        Some(Verb::Plan) => Action::Plan { from, to },
        _ => unreachable!(),
    }
}

/// Whether a verb is RENAME.
fn is_rename(verb: Option<Verb>) -> bool
    ensures { result ≡ is_rename verb }
{
    match verb {
        Some(Verb::Rename) => true,
        _ => false,
    }
}

/// The file and the local name that both parameters name, if there are two.
fn file_and_local(rest: &[u8]) -> Option<(Path, Local)>
    ensures { IfSome result (λ both. AreGood (just (form.File ∷ form.Local ∷ [])) (params_read rest.now)
        × (both.0 ≡ how.file_of (how.param (params_read rest.now) 0))
        × (both.1 ≡ how.local_of (how.param (params_read rest.now) 1))) }
{
    match two_params(rest) {
        Some(both) => match parameter::file(both.0) {
            Some(file) => match parameter::local(both.1) {
                Some(to) => Some((file, to)),
                None => None,
            },
            None => None,
        },
        None => None,
    }
}

/// RENAME with its file and the new name.
fn rename(both: (Path, Local)) -> Action
    ensures { (params : List (List ℕ)) → both.0 ≡ how.file_of (how.param params 0)
        → both.1 ≡ how.local_of (how.param params 1) → result ≡ how.action_of verb.Rename params [] }
{
    let (file, to) = both;
    Action::Rename { file, to }
}

/// The parameters that a verb takes, or a macro.
fn forms_of(verb: Option<Verb>) -> Forms
    ensures { forms_said result ≡ verbs.forms_with verb }
{
    match verb {
        Some(verb) => verb.forms(),
        None => macro_forms(),
    }
}

/// The action of a verb or a macro whose parameters are good.
fn asked_by(verb: Option<Verb>, name: &Local, rest: Rest) -> Action
    requires { AreGood (verbs.forms_with verb) (params_read rest) }
    ensures { result ≡ how.asked verb name.now (params_read rest) rest }
{
    match verb {
        Some(verb) => action_of(verb, rest),
        None => Action::Macro {
            name: name.copy(),
            params: Params::new(rest),
        },
    }
}

/// The action of a verb whose parameters are good.
fn action_of(verb: Verb, rest: Rest) -> Action
    requires { AreGood (verbs.verb_forms verb) (params_read rest) }
    ensures { result ≡ how.action_of verb (params_read rest) rest }
{
    match verb {
        Verb::Input | Verb::Erase | Verb::ListFile | Verb::Retrieve | Verb::Load => {
            of_file(Some(verb), asked::only_file(rest.as_slice()))
        }
        Verb::Copy | Verb::Append | Verb::Plan => {
            of_two_files(Some(verb), asked::two_files(rest.as_slice()))
        }
        Verb::Rename => rename(asked::file_and_local(rest.as_slice())),
        Verb::ListDir => asked::list_dir(rest.as_slice()),
        Verb::TrapGo => {
            let (file, user, modes) = asked::file_user_modes(rest.as_slice());
            Action::TrapGo { file, user, modes }
        }
        Verb::TrapStop => {
            let (file, user, modes) = asked::file_user_modes(rest.as_slice());
            Action::TrapStop { file, user, modes }
        }
        Verb::TrapCheck => asked::trap_check(rest.as_slice()),
        Verb::NewUser => asked::new_user(rest.as_slice()),
        Verb::Budget => asked::budget(rest.as_slice()),
        Verb::Enter => asked::enter(rest.as_slice()),
        Verb::Resume => Action::Resume,
        Verb::Assign => asked::assign(rest.as_slice()),
        Verb::Release => asked::release(rest.as_slice()),
        Verb::Delete => Action::Delete,
        Verb::SetParam => asked::set_param(rest),
        Verb::Display => Action::Display { text: rest },
        Verb::EndJob => Action::EndJob,
    }
}
