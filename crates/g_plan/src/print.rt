//! The program file of an image.
ghost use Rattle.std.specs.Prelude.{◌≡◌, ◌++◌, ◌∷◌, ℕ, List, map, IfOk, OnOk};
ghost use Rattle.g_lines.specs.Lines.{ended, text_of};
ghost use Rattle.g_plan.specs.Assembly.{end_of, words_up_to};
ghost use Rattle.g_plan.specs.SecondPass.{IsImageOf};
ghost use Rattle.g_word.specs.Octal.{octal_digits};

use crate::image::Image;
use g_base::NoMemory;
use g_name::Text;
use g_word::Word;
use std::alloc::Global;

/// The file: the size and the words up to the last that is filled, each in a line of eight octal digits.
pub(crate) fn program_file(alloc: Global, size: u16, image: &Image) -> Result<Text, NoMemory>
    ensures { IfOk result (λ file. (most : ℕ) (filled : List (ℕ × ℕ)) → IsImageOf most filled image.now
        → file ≡ text_of (map (octal_digits 8) (size ∷ words_up_to filled (end_of filled)))) }
{
    let mut file = Text::new(alloc);
    push_line(&mut file, Word::from(size))?;
    for place in 0..image.end() {
        push_line(&mut file, image.word(place))?;
    }
    Ok(file)
}

/// Appends the line of a word to the text; without memory a prefix of it may have been appended.
fn push_line(text: &mut Text, word: Word) -> Result<(), NoMemory>
    ensures { OnOk result (text.new ≡ text.old ++ ended (octal_digits 8 word)) }
{
    text.extend(&word.octal())?;
    text.push(b'\n')
}
