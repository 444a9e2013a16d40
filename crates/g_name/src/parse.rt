//! Parses the text of a name as a path.
ghost use Rattle.std.specs.Prelude.{◌≡◌, IfOk, IfErr, IsOkAnd};
ghost use Rattle.g_name.specs.BadPlace.{IsBadPlace};
ghost use Rattle.g_name.specs.Names.{Name, IsName, IsNameText, name_text, path_name};

use crate::path_reader::PathReader;
use crate::{BadName, Local, Path};

/// Parses a text as a path.
///
/// A text that isn't in the grammar of names is refused with the place where it leaves the grammar.
pub fn parse_path(text: &[u8]) -> Result<Path, BadName>
    ensures ok { IfOk result (λ p. IsName (path_name p) × (text.now ≡ name_text (path_name p))) }
    ensures err { IfErr result (λ e. IsBadPlace IsNameText text.now e.place) }

    // The text of each name is parsed as that name.
    ensures read { (n : Name) → IsName n → text.now ≡ name_text n → IsOkAnd result (λ p. path_name p ≡ n) }
{
    match Local::new(text) {
        Some(local) => Ok(Path {
            user: None,
            local,
            generation: None,
            lang: None,
        }),
        None => read_path(text),
    }
}

/// The same, byte by byte.
fn read_path(text: &[u8]) -> Result<Path, BadName>
    ensures ok { IfOk result (λ p. IsName (path_name p) × (text.now ≡ name_text (path_name p))) }
    ensures err { IfErr result (λ e. IsBadPlace IsNameText text.now e.place) }

    // The text of each name is parsed as that name.
    ensures read { (n : Name) → IsName n → text.now ≡ name_text n → IsOkAnd result (λ p. path_name p ≡ n) }
{
    let mut reader = PathReader::new();
    for (place, byte) in text.iter().enumerate() {
        if !reader.take(*byte) {
            return Err(BadName { place });
        }
    }
    reader.path().ok_or(BadName { place: text.len() })
}
