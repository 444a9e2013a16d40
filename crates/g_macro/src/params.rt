//! The parameters of a level.
ghost use Rattle.std.specs.Prelude.{◌≡◌, ◌-◌, ◌≤◌, IfOk, length, slice_set, vec_capacity};
ghost use Rattle.g_lang.specs.Conditions.{IsLetter};
ghost use Rattle.g_macro.specs.Expansion.{param_of};
ghost use Rattle.g_macro.specs.Levels.{padded};

use g_base::NoMemory;
use g_lines::Texts;
use g_name::Text;
use std::alloc::Global;
use std::marker::Model;

/// How many parameters a level has.
const COUNT: usize = 24;

/// The 24 parameters of a level. Contracts see all of them. Most levels are given few or none, and set none: the empty ones after those given are
/// created only when one is set. Their memory is allocated at the beginning.
#[derive(Drop)]
pub(crate) struct Params {
    given: Vec<Text>,
    alloc: Global,
}

impl Model for Params {
    ghost use Rattle.std.specs.Prelude.{ℕ, List, ◌≤◌, length, vec_capacity};
    ghost use Rattle.g_macro.specs.Levels.{padded};

    ghost Value = { List (List ℕ) };

    ghost view = { λ p. padded p.given.items };

    ghost invariant = { λ p. (length p.given.items ≤ 24) × (24 ≤ vec_capacity p.given) };
}

impl Params {
    /// The given parameters, followed by empty ones.
    pub fn new(alloc: Global, params: Texts) -> Result<Params, NoMemory>
        requires { length params ≤ 24 }
        ensures { IfOk result (λ all. all ≡ padded params) }
    {
        let mut given = Vec::from(params);
        given.reserve(COUNT)?;
        Ok(Params { given, alloc })
    }

    /// The parameter of a letter; the empty text for any other byte.
    pub fn get(&self, letter: u8) -> &[u8]
        ensures { result.now ≡ param_of self.now letter }
    {
        param(self.given.as_slice(), letter)
    }

    /// Sets the parameter of a letter. It takes no memory.
    pub fn set(&mut self, letter: u8, value: Text)
        requires { IsLetter letter }
        ensures { self.new ≡ slice_set self.old (letter - 65) value }
    {
        fill_up(self.alloc, &mut self.given);
        self.given[(letter - b'A') as usize] = value;
    }
}

/// The parameter of a letter among those that were given; the empty text if it wasn't.
fn param(given: &[Text], letter: u8) -> &[u8]
    ensures { result.now ≡ param_of given.now letter }
{
    match given.get(letter.saturating_sub(b'A') as usize) {
        Some(text) => text.as_slice(),
        None => &[],
    }
}

/// Appends empty parameters until there are 24. Memory for them is allocated already.
fn fill_up(alloc: Global, params: &mut Vec<Text>)
    requires few { length params.old.items ≤ 24 }
    requires room { 24 ≤ vec_capacity params.old }
    ensures items { params.new.items ≡ padded params.old.items }
    ensures room { 24 ≤ vec_capacity params.new }
{
    for _ in params.len()..COUNT {
        params.push_reserved(Text::new(alloc));
    }
}
