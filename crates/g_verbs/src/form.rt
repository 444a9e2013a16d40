//! The forms of parameters, and the first parameter that doesn't have the form required at its place.
ghost use Rattle.std.specs.Prelude.{◌≡◌, ◌<◌, length, MatchOption};
ghost use Rattle.g_lang.specs.LineReader.{params_read};
ghost use Rattle.g_verbs.specs.Forms.{AreGood, IsFirstWrong, form_at};
ghost use Rattle.g_verbs.specs.VerbReader as how;
ghost use Rattle.g_verbs.specs.Tables.{forms_said};

use crate::parameter;
use crate::values::text_at;
use g_lang::count_params;
use g_plain::BudgetKind;

/// The form of a parameter.
#[derive(Clone, Copy, PartialEq, Eq)]
pub enum Form {
    /// The path of a file.
    File,
    /// A user with its colon.
    User,
    /// A local name.
    Local,
    /// A budget's word, a space and a number up to the budget's maximum.
    Amount(BudgetKind),
    /// The amount of any budget.
    AnyAmount,
    /// A unit: its kind and its digit.
    Unit,
    /// A mode by its word.
    Mode,
    /// A letter, `A` to `X`.
    Letter,
    /// A number from 0 to 9.
    Digit,
    /// Any text, including the empty one.
    Text,
}

impl Form {
    /// Whether a text is of this form.
    fn is_form_of(self, text: &[u8]) -> bool
        ensures { result ≡ how.is_of self text.now }
    {
        match self {
            Form::File => parameter::file(text).is_some(),
            Form::User => parameter::user(text).is_some(),
            Form::Local => parameter::local(text).is_some(),
            Form::Amount(kind) => parameter::amount(kind, text).is_some(),
            Form::AnyAmount => parameter::budget(text).is_some(),
            Form::Unit => parameter::unit(text).is_some(),
            Form::Mode => parameter::mode(text).is_some(),
            Form::Letter => parameter::letter(text).is_some(),
            Form::Digit => parameter::digit(text).is_some(),
            Form::Text => true,
        }
    }
}

/// The parameters that a verb takes.
#[derive(Clone, Copy)]
pub struct Forms {
    /// Their forms in order.
    pub all: &'static [Form],
    /// How many of them are required.
    pub least: usize,
    /// Whether any others may follow.
    pub any_more: bool,
}

impl Forms {
    /// The first wrong parameter in a text, counted from 1: one that doesn't have its form, or is one too many, or is missing.
    pub fn first_wrong(&self, text: &[u8]) -> Option<usize>
        ensures { MatchOption result (AreGood (forms_said self.now) (params_read text.now))
            (IsFirstWrong (forms_said self.now) (params_read text.now)) }
    {
        let count = count_params(text);
        for place in 0..count {
            if !self.takes(text, place) {
                return Some(place + 1);
            }
        }
        if count < self.least {
            Some(count + 1)
        } else {
            None
        }
    }

    /// Whether a text may have the parameter that it has at a place.
    fn takes(&self, text: &[u8], place: usize) -> bool
        requires { place < length (params_read text.now) }
        ensures { result ≡ how.fits (form_at (forms_said self.now) place) (how.param (params_read text.now) place) }
    {
        match self.all.get(place) {
            // Any text is accepted, so it isn't extracted: the parameters of a macro are only counted.
            Some(Form::Text) => true,
            Some(form) => form.is_form_of(text_at(text, place)),
            None => self.any_more,
        }
    }
}
