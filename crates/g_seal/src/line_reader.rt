//! The lines of a seal, read back.
ghost use Rattle.std.specs.Prelude.{◌≡◌, ◌≢◌, ◌<◌, ◌^◌, ◌++◌, ℕ, All, Bool, IfNone, IfOk, IfSome, List, MatchOption, Option, Some, codes, drop};
ghost use Rattle.hex.specs.Hex.{encode_lower};
ghost use Rattle.g_entry.specs.declared.file_rec.TapeCopy.{TapeCopy};
ghost use Rattle.g_look.specs.FileLines.{taped_text};
ghost use Rattle.g_look.specs.Text.{told};
ghost use Rattle.g_monitor.specs.Parts.{full_text};
ghost use Rattle.g_name.specs.Names.{IsName, full_name};
ghost use Rattle.g_name.specs.declared.full.Full.{Full};
ghost use Rattle.g_seal.specs.Entries.{IsDumpEntry, IsFileEntry, IsPlaced, IsRest, IsSum};
ghost use Rattle.g_seal.specs.SealText.{dump_line, file_line, online_text};
ghost use Rattle.g_seal.specs.declared.entries.SealedDump.{SealedDump};
ghost use Rattle.g_seal.specs.declared.entries.SealedFile.{SealedFile};

use crate::lines::{push_dump, push_file};
use crate::{SealedDump, SealedFile};
use g_base::NoMemory;
use g_entry::TapeCopy;
use g_lines::{number, split_at_byte};
use g_name::{Full, Text, parse_path};
use std::alloc::Global;

/// The dump whose line this is, if it is one of a dump to the byte.
pub(crate) fn dump_in(alloc: Global, line: &[u8]) -> Result<Option<SealedDump>, NoMemory>
    ensures line { IfOk result (λ found. IfSome found (λ dump. line.now ≡ dump_line dump)) }
    ensures entry { IfOk result (λ found. IfSome found IsDumpEntry) }
    ensures none { IfOk result (λ found. IfNone found ((dump : SealedDump) → IsDumpEntry dump → line.now ≢ dump_line dump)) }
{
    let Some(dump) = dump_of(line) else {
        return Ok(None);
    };
    let mut again = Text::new(alloc);
    push_dump(&mut again, &dump)?;
    if again.as_slice() == line {
        Ok(Some(dump))
    } else {
        Ok(None)
    }
}

/// The file whose line this is, if it is one of a file to the byte.
pub(crate) fn file_in(alloc: Global, line: &[u8]) -> Result<Option<SealedFile>, NoMemory>
    ensures line { IfOk result (λ found. IfSome found (λ file. line.now ≡ file_line file)) }
    ensures entry { IfOk result (λ found. IfSome found IsFileEntry) }
    ensures none { IfOk result (λ found. IfNone found ((file : SealedFile) → IsFileEntry file → line.now ≢ file_line file)) }
{
    let Some(file) = file_of(line) else {
        return Ok(None);
    };
    let mut again = Text::new(alloc);
    push_file(&mut again, &file)?;
    if again.as_slice() == line {
        Ok(Some(file))
    } else {
        Ok(None)
    }
}

/// A dump by the fields of a line. The line may differ from the dump's own.
fn dump_of(line: &[u8]) -> Option<SealedDump>
    ensures entry { IfSome result IsDumpEntry }
    ensures read { (dump : SealedDump) → IsDumpEntry dump → line.now ≡ dump_line dump → result ≡ Some dump }
{
    let (number, rest) = field(line, b"DUMP ")?;
    let (serial, rest) = short_field(rest, b"TAPE ")?;
    let (place, rest) = short_field(rest, b"AT ")?;
    let (blocks, rest) = short_field(rest, b"BLOCKS ")?;
    let (sum, _rest) = sum_field(rest)?;
    Some(SealedDump {
        number,
        serial,
        place,
        blocks,
        sum,
    })
}

/// A file by the fields of a line. The line may differ from the file's own.
fn file_of(line: &[u8]) -> Option<SealedFile>
    ensures entry { IfSome result IsFileEntry }
    ensures read { (file : SealedFile) → IsFileEntry file → line.now ≡ file_line file → result ≡ Some file }
{
    let (name, rest) = word(line.strip_prefix(b"FILE ")?);
    let full = full_in(name)?;
    let (len, rest) = short_field(rest, b"LENGTH ")?;
    let (stamp, rest) = field(rest, b"STAMP ")?;
    let (sum, rest) = sum_field(rest)?;
    let (online, rest) = online_in(rest);
    Some(SealedFile {
        full,
        len,
        stamp,
        sum,
        online,
        tape: copy_in(rest),
    })
}

/// The text before the first space, and the text after it; all and nothing without one.
fn word(text: &[u8]) -> (&[u8], &[u8])
    ensures { (one rest : List ℕ) → All (λ b. b ≢ 32) one → IsRest rest → text.now ≡ one ++ rest → (result.0.now ≡ one) × (result.1.now ≡ drop 1 rest) }
{
    match split_at_byte(text, b' ') {
        Some(parts) => parts,
        None => (text, &[]),
    }
}

/// The number after these words, and what follows the space after it.
fn field<'a>(text: &'a [u8], words: &[u8]) -> Option<(u64, &'a [u8])>
    ensures fits { IfSome result (λ p. p.0 < 2 ^ 64) }
    ensures begins { IfSome result (λ p. (more : List ℕ) × (text.now ≡ words.now ++ more)) }
    ensures read { (n : ℕ) (rest : List ℕ) → n < 2 ^ 64 → IsRest rest → text.now ≡ told words.now n ++ rest
        → MatchOption result ⊥ (λ p. (p.0 ≡ n) × (p.1.now ≡ drop 1 rest)) }
{
    let (digits, rest) = word(text.strip_prefix(words)?);
    Some((number(digits, u64::MAX)?, rest))
}

/// The same for a number below 2^32.
fn short_field<'a>(text: &'a [u8], words: &[u8]) -> Option<(u32, &'a [u8])>
    ensures fits { IfSome result (λ p. p.0 < 2 ^ 32) }
    ensures begins { IfSome result (λ p. (more : List ℕ) × (text.now ≡ words.now ++ more)) }
    ensures read { (n : ℕ) (rest : List ℕ) → n < 2 ^ 32 → IsRest rest → text.now ≡ told words.now n ++ rest
        → MatchOption result ⊥ (λ p. (p.0 ≡ n) × (p.1.now ≡ drop 1 rest)) }
{
    let (value, rest) = field(text, words)?;
    Some((u32::try_from(value).ok()?, rest))
}

/// A sum, and what follows the space after it.
fn sum_field(text: &[u8]) -> Option<([u8; 32], &[u8])>
    ensures sum { IfSome result (λ p. IsSum p.0) }
    ensures read { (sum rest : List ℕ) → IsSum sum → IsRest rest → text.now ≡ codes "SHA256 " ++ encode_lower sum ++ rest
        → MatchOption result ⊥ (λ p. (p.0 ≡ sum) × (p.1.now ≡ drop 1 rest)) }
{
    let (digits, rest) = word(text.strip_prefix(b"SHA256 ")?);
    let mut sum = [0; 32];
    match hex::decode_to_slice(digits, &mut sum) {
        Ok(()) => Some((sum, rest)),
        Err(_) => None,
    }
}

/// Whether the file is on the disc, and what follows the space after that word.
fn online_in(text: &[u8]) -> (bool, &[u8])
    ensures { (online : Bool) (tape : Option TapeCopy) → text.now ≡ drop 1 (online_text online ++ taped_text tape)
        → (result.0 ≡ online) × (result.1.now ≡ drop 1 (taped_text tape)) }
{
    if text.starts_with(b"DISC") {
        let (_disc, rest) = word(text);
        (true, rest)
    } else {
        (false, text)
    }
}

/// A place on tape.
fn copy_in(text: &[u8]) -> Option<TapeCopy>
    ensures fits { IfSome result IsPlaced }
    ensures read { (tape : Option TapeCopy) → IfSome tape IsPlaced → text.now ≡ drop 1 (taped_text tape) → result ≡ tape }
{
    let (serial, rest) = short_field(text, b"TAPE ")?;
    let (first, _rest) = short_field(rest, b"AT ")?;
    Some(TapeCopy { serial, first })
}

/// A full name.
fn full_in(text: &[u8]) -> Option<Full>
    ensures name { IfSome result (λ full. IsName (full_name full)) }
    ensures read { (full : Full) → IsName (full_name full) → text.now ≡ full_text full → result ≡ Some full }
{
    let Ok(path) = parse_path(text) else {
        return None;
    };
    Some(Full {
        user: path.user?,
        local: path.local,
        generation: path.generation?,
        lang: path.lang?,
    })
}
