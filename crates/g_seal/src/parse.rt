//! A seal that is read back.
ghost use Rattle.std.specs.Prelude.{◌≡◌, ◌≢◌, ◌↔◌, ◌++◌, ◌∷◌, ℕ, [], IfErr, IfOk, IsFalse, IsTrue, List, MatchOption, MatchResult, codes};
ghost use Rattle.hex.specs.Hex.{encode_lower};
ghost use Rattle.sha2.specs.Sha256.{sha256};
ghost use Rattle.g_lines.specs.Documents.{IsWhole};
ghost use Rattle.g_lines.specs.Lines.{ended, lines_of};
ghost use Rattle.g_seal.specs.Entries.{AreEntries, AreKnown, EndsWithSum, IsRefused};
ghost use Rattle.g_seal.specs.SealText.{sealed_lines, sealed_text};
ghost use Rattle.g_seal.specs.declared.entries.SealedDump.{SealedDump};
ghost use Rattle.g_seal.specs.declared.entries.SealedFile.{SealedFile};

use crate::line_reader::{dump_in, file_in};
use crate::lines::push_last;
use crate::{SealedDump, SealedFile};
use g_base::NoMemory;
use g_lines::Lines;
use g_name::Text;
use sha2::{Digest, Sha256};
use std::alloc::Global;
use thiserror::Error;

/// The dumps and the files of a seal, in the order of its lines.
#[derive(Drop)]
pub struct Seal {
    pub dumps: Vec<SealedDump>,
    pub files: Vec<SealedFile>,
}

/// Why a text isn't a seal (docs/MANUAL.md, "A check against a seal").
#[derive(Clone, Copy, Debug, PartialEq, Eq, Error)]
pub enum SealFault {
    /// It is empty, or its last byte isn't 10.
    #[error("the seal doesn't end with a line")]
    NotEnded,
    /// Its last line isn't one with a sum.
    #[error("the seal has no last line")]
    WithoutSum,
    /// The sum of the lines before the last one is another.
    #[error("the seal was changed")]
    OtherSum,
    /// This line, counted from 1, is neither a dump's nor a file's.
    #[error("line {0} of the seal is unknown")]
    Line(u64),
    /// Memory ran out.
    #[error("out of memory")]
    NoMemory,
}

/// The bytes of the last line, with its byte 10: `SEAL ` and 64 digits.
const LAST: usize = 70;

/// The seal whose text this is, to the byte. Any other text is refused.
pub fn parse_seal(alloc: Global, text: &[u8]) -> Result<Seal, SealFault>
    ensures read { IfOk result (λ s. text.now ≡ sealed_text s.dumps.items s.files.items) }
    ensures entries { IfOk result (λ s. AreEntries s.dumps.items s.files.items) }
    ensures refused { IfErr result (λ e. IsRefused e text.now) }

    // The text of each seal is parsed as that seal.
    ensures accepted { (dumps : List SealedDump) (files : List SealedFile) → AreEntries dumps files → text.now ≡ sealed_text dumps files
        → MatchResult result (λ s. (s.dumps.items ≡ dumps) × (s.files.items ≡ files)) (λ e. e ≡ SealFault.NoMemory) }
{
    match front_of(alloc, text) {
        Ok(front) => lines_in(alloc, front),
        Err(fault) => Err(fault),
    }
}

/// The lines before the last one, if the sum there is theirs.
fn front_of(alloc: Global, text: &[u8]) -> Result<&[u8], SealFault>
    ensures sum { IfOk result (λ front. EndsWithSum text.now front.now (encode_lower (sha256 front.now))) }
    ensures refused { IfErr result (λ e. IsRefused e text.now) }
{
    if !is_ended(text) {
        return Err(SealFault::NotEnded);
    }
    let Some((front, last)) = split_last_line(text) else {
        return Err(SealFault::WithoutSum);
    };
    let mut due = Text::new(alloc);
    match push_last(&mut due, &Sha256::digest(front)) {
        Ok(()) => {}
        Err(_) => return Err(SealFault::NoMemory),
    }
    if due.as_slice() == last {
        Ok(front)
    } else {
        Err(SealFault::OtherSum)
    }
}

/// The text before the last line, and that line, if it may be one of a sum. The text ends with a byte 10.
fn split_last_line(text: &[u8]) -> Option<(&[u8], &[u8])>
    ensures { MatchOption result
        ((front : List ℕ) (digits : List ℕ) → EndsWithSum text.now front digits → ⊥)
        (λ parts. (f : List ℕ) → text.now ≡ ended f → (digits : List ℕ)
        × EndsWithSum text.now parts.0.now digits × (parts.1.now ≡ ended (codes "SEAL " ++ digits))) }
{
    if text.len() < LAST {
        return None;
    }
    let (front, last) = text.split_at(text.len() - LAST);
    if is_whole(front) && last.starts_with(b"SEAL ") {
        Some((front, last))
    } else {
        None
    }
}

/// Whether the text consists of whole lines.
fn is_whole(text: &[u8]) -> bool
    ensures { IsTrue result ↔ IsWhole text.now }
{
    text.is_empty() || is_ended(text)
}

/// Whether the last byte is 10.
fn is_ended(text: &[u8]) -> bool
    ensures ended { IsTrue result → (front : List ℕ) × (text.now ≡ ended front) }
    ensures not { IsFalse result → (front : List ℕ) → text.now ≢ ended front }
{
    match text.split_last() {
        Some((last, _front)) => *last == b'\n',
        None => false,
    }
}

/// The lines of dumps, and those of files after them.
fn lines_in(alloc: Global, front: &[u8]) -> Result<Seal, SealFault>
    ensures lines { IfOk result (λ s. lines_of front.now ≡ sealed_lines s.dumps.items s.files.items) }
    ensures entries { IfOk result (λ s. AreEntries s.dumps.items s.files.items) }
    ensures refused { (text : List ℕ) → EndsWithSum text front.now (encode_lower (sha256 front.now)) → IfErr result (λ e. IsRefused e text) }
{
    let mut seal = Seal {
        dumps: Vec::new(alloc),
        files: Vec::new(alloc),
    };
    let mut lines = Lines::new(front);
    let mut count: u64 = 0;
    while let Some(line) = lines.next() {
        count = count.saturating_add(1);
        match add_line(alloc, &mut seal, line) {
            Ok(true) => {}
            Ok(false) => return Err(SealFault::Line(count)),
            Err(_) => return Err(SealFault::NoMemory),
        }
    }
    Ok(seal)
}

/// Adds the line, and returns whether it is a file's, or a dump's and no file's came before it.
fn add_line(alloc: Global, seal: &mut Seal, line: &[u8]) -> Result<bool, NoMemory>
    ensures added { IfOk result (λ is. IsTrue is → sealed_lines seal.new.dumps.items seal.new.files.items
        ≡ sealed_lines seal.old.dumps.items seal.old.files.items ++ line.now ∷ []) }
    ensures entries { AreEntries seal.old.dumps.items seal.old.files.items → IfOk result (λ is. AreEntries seal.new.dumps.items seal.new.files.items) }
    ensures unknown { IfOk result (λ is. IsFalse is → AreKnown (sealed_lines seal.old.dumps.items seal.old.files.items ++ line.now ∷ []) → ⊥) }
{
    if let Some(file) = file_in(alloc, line)? {
        seal.files.push(file)?;
        return Ok(true);
    }
    if !seal.files.is_empty() {
        return Ok(false);
    }
    match dump_in(alloc, line)? {
        Some(dump) => {
            seal.dumps.push(dump)?;
            Ok(true)
        }
        None => Ok(false),
    }
}
