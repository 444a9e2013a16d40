//! The parameters of a verb, found in its text.
ghost use Rattle.std.specs.List.{slice_get};
ghost use Rattle.std.specs.Prelude.{◌≡◌, ◌≤◌, ◌+◌, drop, length, None, Some, IfOk, MatchOption};
ghost use Rattle.g_lang.specs.LineReader as how;
ghost use Rattle.g_lang.specs.Texts.{bytes_left, params_left, params_of};

use crate::Rest;
use crate::parse::read_params;
use crate::pieces::{split_at_comma, trimmed};
use g_base::NoMemory;
use g_lines::Texts;
use g_name::Text;
use std::alloc::Global;
use std::marker::Model;

/// The parameters of a verb, stored as one text. Contracts see a list of texts.
#[derive(Drop)]
pub struct Params {
    text: Rest,
}

impl Model for Params {
    ghost use Rattle.std.specs.Prelude.{ℕ, List};
    ghost use Rattle.g_lang.specs.LineReader.{params_read};

    ghost Value = { List (List ℕ) };

    ghost view = { λ p. params_read p.text };
}

impl Params {
    /// The parameters in a text; allocates nothing.
    pub fn new(text: Rest) -> Params
        ensures { result ≡ how.params_read text }
    {
        Params { text }
    }

    /// A list of the parameters, each a text of its own.
    #[tactic(auto, using(crate::proofs::ParamLemmas::list_is))]
    pub fn list(&self, alloc: Global) -> Result<Texts, NoMemory>
        ensures { IfOk result (λ texts. texts ≡ self.now) }
    {
        read_params(alloc, self.text.as_slice())
    }
}

/// The parameter at a place of a text, if the text has that many. Contracts see an option.
#[derive(Drop)]
pub struct Param {
    text: Rest,
    place: usize,
}

impl Model for Param {
    ghost use Rattle.std.specs.List.{slice_get};
    ghost use Rattle.std.specs.Prelude.{ℕ, List, Option};
    ghost use Rattle.g_lang.specs.LineReader.{params_read};

    ghost Value = { Option (List ℕ) };

    ghost view = { λ p. slice_get (params_read p.text) p.place };
}

impl Param {
    /// The parameter at a place, from 0, of a text; allocates nothing.
    pub fn new(text: Rest, place: usize) -> Param
        ensures { result ≡ slice_get (how.params_read text) place }
    {
        Param { text, place }
    }

    /// The parameter as a text of its own.
    #[tactic(auto, using(crate::proofs::ParamLemmas::text_there, crate::proofs::ParamLemmas::text_lacks))]
    pub fn to_text(&self, alloc: Global) -> Result<Option<Text>, NoMemory>
        ensures { IfOk result (λ text. text ≡ self.now) }
    {
        match param_at(self.text.as_slice(), self.place) {
            Some(param) => match Text::from_slice(alloc, param) {
                Ok(text) => Ok(Some(text)),
                Err(NoMemory) => Err(NoMemory),
            },
            None => Ok(None),
        }
    }
}

/// The number of parameters in a text; allocates nothing.
#[tactic(auto, using(crate::proofs::ParamLemmas::counted_first, crate::proofs::ParamLemmas::counted_none, crate::proofs::ParamLemmas::counted_all))]
pub fn count_params(text: &[u8]) -> usize
    ensures { result ≡ length (how.params_read text.now) }
{
    let mut left = some_left(text);
    for count in 0..text.len() + 1 {
        let Some(rest) = left else {
            return count;
        };
        left = behind_param(rest);
    }
    // No text has more parameters than that.
    text.len() + 1
}

/// The parameter at a place, from 0, of a text, without the spaces around it; allocates nothing.
#[tactic(auto, using(crate::proofs::ParamLemmas::left_none))]
pub fn param_at(text: &[u8], place: usize) -> Option<&[u8]>
    ensures { MatchOption result (slice_get (how.params_read text.now) place ≡ None)
        (λ param. slice_get (how.params_read text.now) place ≡ Some param.now) }
{
    let mut left = some_left(text);
    for _step in 0..place {
        let Some(rest) = left else {
            return None;
        };
        left = behind_param(rest);
    }
    match left {
        Some(rest) => Some(first_param(rest)),
        None => None,
    }
}

/// The text, or none if it is empty, since it has no parameters then.
#[tactic(auto, using(crate::proofs::ParamLemmas::left_none_first, crate::proofs::ParamLemmas::left_all_first))]
fn some_left(text: &[u8]) -> Option<&[u8]>
    ensures params { params_left result ≡ how.params_read text.now }
    ensures size { bytes_left result ≤ length text.now + 1 }
{
    if text.is_empty() { None } else { Some(text) }
}

/// The first parameter of the rest of a text.
#[tactic(auto, using(crate::proofs::ParamLemmas::left_first))]
fn first_param(rest: &[u8]) -> &[u8]
    ensures { slice_get (params_of rest.now) 0 ≡ Some result.now }
{
    let (part, _) = split_at_comma(rest);
    trimmed(part)
}

/// The rest after the first parameter, if another follows.
#[tactic(auto, using(crate::proofs::ParamLemmas::left_params, crate::proofs::ParamLemmas::left_bytes))]
fn behind_param(rest: &[u8]) -> Option<&[u8]>
    ensures params { params_left result ≡ drop 1 (params_of rest.now) }
    ensures shorter { bytes_left result ≤ length rest.now }
{
    let (_, behind) = split_at_comma(rest);
    behind
}
