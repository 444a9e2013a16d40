//! The words of a program while its lines are placed.
ghost use Rattle.std.specs.Prelude.{◌≡◌, ◌≤◌, ◌∷◌, ◌<◌, ◌^◌, ℕ, List, [], Some, length, IfOk};
ghost use Rattle.std.specs.List.{enumerate_from};
ghost use Rattle.std.specs.Option.{option_map};
ghost use Rattle.g_plan.specs.Assembly as assembly;
ghost use Rattle.g_plan.specs.SecondPass.{IsImageOf, IsPut};

use crate::chars::first_four;
use g_base::NoMemory;
use g_word::Word;
use std::alloc::Global;

/// The words of a program, some of which are filled.
#[derive(Drop)]
pub(crate) struct Image {
    words: Vec<Option<Word>>,
    /// The place after the last filled word.
    end: usize,
}

impl Image {
    /// An image of `size` words, none of them filled.
    pub fn new(alloc: Global, size: usize) -> Result<Image, NoMemory>
        ensures { IfOk result (λ image. IsImageOf size [] image) }
    {
        let mut words = Vec::new(alloc);
        words.resize(size, None)?;
        Ok(Image { words, end: 0 })
    }

    /// The place after the last filled word.
    pub fn end(&self) -> usize
        ensures { (size : ℕ) (filled : List (ℕ × ℕ)) → IsImageOf size filled self.now → result ≡ assembly.end_of filled }
    {
        self.end
    }

    /// The word at a place, or 0 if it isn't filled.
    pub fn word(&self, place: usize) -> Word
        ensures { (size : ℕ) (filled : List (ℕ × ℕ)) → IsImageOf size filled self.now → place < size → result ≡ assembly.word_at filled place }
    {
        if place < self.words.len() {
            self.words[place].unwrap_or(Word::ZERO)
        } else {
            Word::ZERO
        }
    }

    /// Fills a place with a word. `false`, and no change, if it is past the last or was filled.
    pub fn put(&mut self, place: usize, word: Word) -> bool
        requires { place < 2 ^ 32 }
        ensures { IsPut (Some ((place, word) ∷ [])) self.old self.new result }
    {
        let _bits = word.value();
        if self.words.len() <= place || self.words[place].is_some() {
            return false;
        }
        self.words[place] = Some(word);
        self.end = self.end.max(place + 1);
        true
    }

    /// Fills a place with a word, if there is one.
    pub fn put_one(&mut self, place: usize, word: Option<Word>) -> bool
        requires { place < 2 ^ 32 }
        ensures { IsPut (option_map (λ w. (place, w) ∷ []) word) self.old self.new result }
    {
        match word {
            Some(word) => self.put(place, word),
            None => false,
        }
    }

    /// Fills places from `start` on with characters, four in each. `false` if one of them is past the last or was filled; the places before it are
    /// filled then.
    pub fn put_chars(&mut self, start: usize, text: &[u8]) -> bool
        requires early { start < 2 ^ 16 }
        requires few { length text.now ≤ 40 }
        ensures { IsPut (Some (enumerate_from start (assembly.char_words text.now))) self.old self.new result }
    {
        let mut place = start;
        let mut rest = text;
        while !rest.is_empty() {
            if !self.put(place, first_four(rest)) {
                return false;
            }
            place += 1;
            rest = &rest[rest.len().min(4)..];
        }
        true
    }
}
