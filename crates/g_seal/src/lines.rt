//! The lines of a seal as text.
ghost use Rattle.std.specs.Prelude.{◌≡◌, ◌++◌, OnOk};
ghost use Rattle.hex.specs.Hex.{encode_lower};
ghost use Rattle.g_lines.specs.Lines.{ended};
ghost use Rattle.g_look.specs.FileLines.{taped_text};
ghost use Rattle.g_seal.specs.SealText.{dump_line, file_line, last_line, online_text, seal_line, sum_text};

use crate::{SealedDump, SealedFile};
use g_base::NoMemory;
use g_entry::TapeCopy;
use g_look::{push_copy, push_told};
use g_monitor::push_full;
use g_name::Text;
use sha2::{Digest, Sha256};

/// Appends the line of a dump to the text.
pub(crate) fn push_dump_line(text: &mut Text, dump: &SealedDump) -> Result<(), NoMemory>
    ensures { OnOk result (text.new ≡ text.old ++ ended (dump_line dump.now)) }
{
    push_dump(text, dump)?;
    text.push(b'\n')
}

/// Appends the line of a dump, without its byte 10.
pub(crate) fn push_dump(text: &mut Text, dump: &SealedDump) -> Result<(), NoMemory>
    ensures { OnOk result (text.new ≡ text.old ++ dump_line dump.now) }
{
    push_told(text, b"DUMP ", dump.number)?;
    push_told(text, b" TAPE ", u64::from(dump.serial))?;
    push_told(text, b" AT ", u64::from(dump.place))?;
    push_told(text, b" BLOCKS ", u64::from(dump.blocks))?;
    push_sum(text, &dump.sum)
}

/// Appends the line of a file to the text.
pub(crate) fn push_file_line(text: &mut Text, file: &SealedFile) -> Result<(), NoMemory>
    ensures { OnOk result (text.new ≡ text.old ++ ended (file_line file.now)) }
{
    push_file(text, file)?;
    text.push(b'\n')
}

/// Appends the line of a file, without its byte 10.
pub(crate) fn push_file(text: &mut Text, file: &SealedFile) -> Result<(), NoMemory>
    ensures { OnOk result (text.new ≡ text.old ++ file_line file.now) }
{
    text.extend(b"FILE ")?;
    push_full(text, &file.full)?;
    push_told(text, b" LENGTH ", u64::from(file.len))?;
    push_told(text, b" STAMP ", file.stamp)?;
    push_sum(text, &file.sum)?;
    push_online(text, file.online)?;
    push_taped(text, &file.tape)
}

/// Appends the last line to a text, with the sum of all lines before it.
pub(crate) fn push_seal(text: &mut Text) -> Result<(), NoMemory>
    ensures { OnOk result (text.new ≡ text.old ++ ended (seal_line text.old)) }
{
    let sum = Sha256::digest(text.as_slice());
    push_last(text, &sum)
}

/// Appends the last line with this sum to the text.
pub(crate) fn push_last(text: &mut Text, sum: &[u8; 32]) -> Result<(), NoMemory>
    ensures { OnOk result (text.new ≡ text.old ++ ended (last_line sum.now)) }
{
    text.extend(b"SEAL ")?;
    push_hex(text, sum)?;
    text.push(b'\n')
}

/// Appends a sum to the text.
fn push_sum(text: &mut Text, sum: &[u8; 32]) -> Result<(), NoMemory>
    ensures { OnOk result (text.new ≡ text.old ++ sum_text sum.now) }
{
    text.extend(b" SHA256 ")?;
    push_hex(text, sum)
}

/// Appends the 64 hex digits of a sum to the text.
fn push_hex(text: &mut Text, sum: &[u8; 32]) -> Result<(), NoMemory>
    ensures { OnOk result (text.new ≡ text.old ++ encode_lower sum.now) }
{
    let mut digits = [0; 64];
    match hex::encode_to_slice(sum.as_slice(), &mut digits) {
        Ok(()) => text.extend(&digits),
        Err(_) => unreachable!(),
    }
}

/// Appends to the text that the file is on the disc, if it is.
pub(crate) fn push_online(text: &mut Text, online: bool) -> Result<(), NoMemory>
    ensures { OnOk result (text.new ≡ text.old ++ online_text online) }
{
    if online {
        text.extend(b" DISC")
    } else {
        Ok(())
    }
}

/// Appends to the text where the file is on tape, if it is.
pub(crate) fn push_taped(text: &mut Text, copy: &Option<TapeCopy>) -> Result<(), NoMemory>
    ensures { OnOk result (text.new ≡ text.old ++ taped_text copy.now) }
{
    match copy {
        Some(copy) => push_copy(text, copy),
        None => Ok(()),
    }
}
