//! Consecutive lines in one text.
ghost use Rattle.std.specs.Prelude.{◌≡◌, ◌∷◌, ◌++◌, [], IfOk, OnErr, OnOk, IsTrue, IsFalse};
ghost use Rattle.g_lines.specs.Documents.{IsOneLine, IsWhole};
ghost use Rattle.g_lines.specs.Lines.{ended, lines_of, text_of};

use g_base::NoMemory;
use g_name::Text;
use std::alloc::Global;
use std::marker::Model;

/// Consecutive lines in one text, each with its byte 10. Contracts see the list of the lines, without their bytes 10.
#[derive(Drop)]
pub struct Document {
    text: Text,
}

impl Model for Document {
    ghost use Rattle.std.specs.Prelude.{ℕ, List};
    ghost use Rattle.g_lines.specs.Documents.{IsWhole};
    ghost use Rattle.g_lines.specs.Lines.{lines_of};

    ghost Value = { List (List ℕ) };

    ghost view = { λ d. lines_of d.text };

    ghost invariant = { λ d. IsWhole d.text };
}

impl Document {
    /// No lines; allocates nothing.
    pub fn new(alloc: Global) -> Document
        ensures { result ≡ [] }
    {
        Document {
            text: Text::new(alloc),
        }
    }

    /// The lines of a text, in one copy.
    pub fn of_text(alloc: Global, text: &[u8]) -> Result<Document, NoMemory>
        ensures { IfOk result (λ lines. lines ≡ lines_of text.now) }
    {
        let mut copy = Text::from(Vec::with_capacity(alloc, text.len() + 1)?);
        copy.extend(text)?;
        end_last(&mut copy)?;
        Ok(Document { text: copy })
    }

    /// Appends a line; without memory the document is unchanged.
    pub fn push(&mut self, line: Text) -> Result<(), NoMemory>
        requires { IsOneLine line }
        ensures ok { OnOk result (self.new ≡ self.old ++ line ∷ []) }
        ensures err { OnErr result (self.new ≡ self.old) }
    {
        let mut ended = line;
        ended.push(b'\n')?;
        self.text.extend(ended.as_slice())
    }

    /// The text of the lines, each with its byte 10.
    pub fn as_text(&self) -> &[u8]
        ensures text { result.now ≡ text_of self.now }
        ensures lines { lines_of result.now ≡ self.now }
    {
        self.text.as_slice()
    }
}

/// Appends a byte 10 to a text whose last line has none.
fn end_last(text: &mut Text) -> Result<(), NoMemory>
    ensures whole { OnOk result (IsWhole text.new) }
    ensures lines { OnOk result (lines_of text.new ≡ lines_of text.old) }
{
    if lacks_end(text.as_slice()) {
        text.push(b'\n')?;
    }
    Ok(())
}

/// Whether the last line is missing its byte 10.
fn lacks_end(text: &[u8]) -> bool
    ensures lacks { IsTrue result → lines_of (ended text.now) ≡ lines_of text.now }
    ensures whole { IsFalse result → IsWhole text.now }
{
    if text.is_empty() {
        return false;
    }
    text[text.len() - 1] != b'\n'
}
