//! The verbs that are no macros, and the parameters that each takes.
ghost use Rattle.std.specs.List.{find};
ghost use Rattle.std.specs.Prelude.{◌≡◌, ◌∷◌, ℕ, List};
ghost use Rattle.g_name.specs.Order.{same_text};
ghost use Rattle.g_verbs.specs.Forms as forms;
ghost use Rattle.g_verbs.specs.Tables.{forms_said};
ghost use Rattle.g_verbs.specs.Verbs as table;

use crate::{Form, Forms};
use g_plain::BudgetKind;

/// A verb that is no macro. What each does is in `docs/MANUAL.md`, "Verbs".
#[derive(Clone, Copy, PartialEq, Eq)]
pub enum Verb {
    Input,
    Copy,
    Append,
    Erase,
    Rename,
    ListFile,
    ListDir,
    TrapGo,
    TrapStop,
    TrapCheck,
    NewUser,
    Budget,
    Retrieve,
    Load,
    Plan,
    Enter,
    Resume,
    Assign,
    Release,
    Delete,
    SetParam,
    Display,
    EndJob,
}

impl Verb {
    /// The verb of a name; the name of a macro has none.
    pub fn of(name: &[u8]) -> Option<Verb>
        ensures { result ≡ table.verb_of name.now }
    {
        match name.split_first() {
            Some((letter, _)) => named(verbs_at(*letter), name),
            None => None,
        }
    }

    /// The verb's name.
    pub fn word(self) -> &'static [u8]
        ensures { result.now ≡ table.verb_word self }
    {
        match self {
            Verb::Input => b"INPUT",
            Verb::Copy => b"COPY",
            Verb::Append => b"APPEND",
            Verb::Erase => b"ERASE",
            Verb::Rename => b"RENAME",
            Verb::ListFile => b"LISTFILE",
            Verb::ListDir => b"LISTDIR",
            Verb::TrapGo => b"TRAPGO",
            Verb::TrapStop => b"TRAPSTOP",
            Verb::TrapCheck => b"TRAPCHECK",
            Verb::NewUser => b"NEWUSER",
            Verb::Budget => b"BUDGET",
            Verb::Retrieve => b"RETRIEVE",
            Verb::Load => b"LOAD",
            Verb::Plan => b"PLAN",
            Verb::Enter => b"ENTER",
            Verb::Resume => b"RESUME",
            Verb::Assign => b"ASSIGN",
            Verb::Release => b"RELEASE",
            Verb::Delete => b"DELETE",
            Verb::SetParam => b"SETPARAM",
            Verb::Display => b"DISPLAY",
            Verb::EndJob => b"ENDJOB",
        }
    }

    /// The parameters that the verb takes.
    pub fn forms(self) -> Forms
        ensures { forms_said result ≡ table.verb_forms self }
    {
        match self {
            Verb::Input | Verb::Erase | Verb::ListFile | Verb::Retrieve | Verb::Load => {
                just(&[Form::File])
            }
            Verb::Copy | Verb::Append | Verb::Plan => just(&[Form::File, Form::File]),
            Verb::Rename => just(&[Form::File, Form::Local]),
            Verb::ListDir => at_least(0, &[Form::User]),
            Verb::TrapGo | Verb::TrapStop => at_least(3, &TRAP_FORMS),
            Verb::TrapCheck => at_least(1, &[Form::File, Form::User]),
            Verb::NewUser => at_least(3, &NEW_USER_FORMS),
            Verb::Budget => just(&[Form::User, Form::AnyAmount]),
            Verb::Enter => just(&[Form::Digit]),
            Verb::Resume | Verb::Delete | Verb::EndJob => just(&[]),
            Verb::Assign => just(&[Form::Unit, Form::File]),
            Verb::Release => just(&[Form::Unit]),
            Verb::SetParam => at_least(1, &[Form::Letter, Form::Text]),
            Verb::Display => Forms {
                all: &[Form::Text],
                least: 1,
                any_more: true,
            },
        }
    }
}

/// The first of these verbs that has this name.
fn named(verbs: &[Verb], name: &[u8]) -> Option<Verb>
    ensures { result ≡ find (λ verb. same_text (table.verb_word verb) name.now) verbs.now }
{
    for verb in verbs {
        if verb.word() == name {
            return Some(*verb);
        }
    }
    None
}

/// The verbs whose names begin with this letter, in the order of the manual.
fn verbs_at(letter: u8) -> &'static [Verb]
    ensures { (rest : List ℕ) → find (λ verb. same_text (table.verb_word verb) (letter ∷ rest)) result.now
        ≡ table.verb_of (letter ∷ rest) }
{
    match letter {
        b'A' => &[Verb::Append, Verb::Assign],
        b'B' => &[Verb::Budget],
        b'C' => &[Verb::Copy],
        b'D' => &[Verb::Delete, Verb::Display],
        b'E' => &[Verb::Erase, Verb::Enter, Verb::EndJob],
        b'I' => &[Verb::Input],
        b'L' => &[Verb::ListFile, Verb::ListDir, Verb::Load],
        b'N' => &[Verb::NewUser],
        b'P' => &[Verb::Plan],
        b'R' => &[Verb::Rename, Verb::Retrieve, Verb::Resume, Verb::Release],
        b'S' => &[Verb::SetParam],
        b'T' => &[Verb::TrapGo, Verb::TrapStop, Verb::TrapCheck],
        _ => &[],
    }
}

/// The parameters of TRAPGO and TRAPSTOP.
const TRAP_FORMS: [Form; 7] = [
    Form::File,
    Form::User,
    Form::Mode,
    Form::Mode,
    Form::Mode,
    Form::Mode,
    Form::Mode,
];

/// The parameters of NEWUSER.
const NEW_USER_FORMS: [Form; 4] = [
    Form::User,
    Form::Amount(BudgetKind::Space),
    Form::Amount(BudgetKind::Time),
    Form::Amount(BudgetKind::Money),
];

/// The parameters of a macro: up to 24 texts.
pub(crate) fn macro_forms() -> Forms
    ensures { forms_said result ≡ table.macro_forms }
{
    at_least(0, &[Form::Text; 24])
}

/// Exactly these parameters.
fn just(all: &'static [Form]) -> Forms
    ensures { forms_said result ≡ forms.just all.now }
{
    at_least(all.len(), all)
}

/// These parameters, of which the first `least` are required.
fn at_least(least: usize, all: &'static [Form]) -> Forms
    ensures { forms_said result ≡ forms.at_least least all.now }
{
    Forms {
        all,
        least,
        any_more: false,
    }
}
