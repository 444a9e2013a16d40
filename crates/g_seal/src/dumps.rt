//! The lines of the completed dumps.
ghost use Rattle.std.specs.Prelude.{◌≡◌, ◌⊎◌, ◌++◌, All, Err, IfErr, IfOk, OnOk, map, true};
ghost use Rattle.g_lines.specs.Lines.{ended, text_of};
ghost use Rattle.g_store_meaning.specs.Meaning.{told_reels};
ghost use Rattle.g_store_meaning.specs.Reading.{ReelsTold};
ghost use Rattle.g_look.specs.Looks.{ReadsRackByCause};
ghost use Rattle.g_restore.specs.KnownDumps.{known};
ghost use Rattle.g_seal.specs.InMemory.{found_line, known_dump};

use crate::SealedDump;
use crate::lines::push_dump_line;
use crate::reel_sum::reel_sum;
use g_entry::TapeCopy;
use g_look::LookFault;
use g_name::Text;
use g_restore::Found;
use g_tape::Tapes;

/// Appends a line for each dump to the text. `TapeUnread`, `NoMemory`.
pub(crate) fn push_dumps<T: Tapes>(
    text: &mut Text,
    tapes: &mut T,
    found: &[Found],
) -> Result<(), LookFault>
    requires mounted { All (λ r. r.mounted ≡ true) (told_reels (T.rack tapes.old)) }
    ensures text { ReelsTold (told_reels (T.rack tapes.old)) → OnOk result (text.new ≡ text.old
        ++ text_of (map (found_line (told_reels (T.rack tapes.old))) found.now)) }
    ensures tapes { ReadsRackByCause (result ≡ Err LookFault.TapeUnread) (T.rack tapes.old) (T.rack tapes.new) }
    ensures faults { IfErr result (λ e. (e ≡ LookFault.TapeUnread) ⊎ (e ≡ LookFault.NoMemory)) }
{
    for one in found {
        match push_dump(text, tapes, one) {
            Ok(()) => {}
            Err(fault) => return Err(fault),
        }
    }
    Ok(())
}

/// Appends the line of a dump to the text.
fn push_dump<T: Tapes>(text: &mut Text, tapes: &mut T, one: &Found) -> Result<(), LookFault>
    requires mounted { All (λ r. r.mounted ≡ true) (told_reels (T.rack tapes.old)) }
    ensures text { ReelsTold (told_reels (T.rack tapes.old)) → OnOk result (text.new ≡ text.old
        ++ ended (found_line (told_reels (T.rack tapes.old)) one.now)) }
    ensures tapes { ReadsRackByCause (result ≡ Err LookFault.TapeUnread) (T.rack tapes.old) (T.rack tapes.new) }
    ensures faults { IfErr result (λ e. (e ≡ LookFault.TapeUnread) ⊎ (e ≡ LookFault.NoMemory)) }
{
    match summed(tapes, one) {
        Ok(dump) => match push_dump_line(text, &dump) {
            Ok(()) => Ok(()),
            Err(_) => Err(LookFault::NoMemory),
        },
        Err(fault) => Err(fault),
    }
}

/// A dump with the sum of its blocks. `TapeUnread`, `NoMemory`.
fn summed<T: Tapes>(tapes: &mut T, one: &Found) -> Result<SealedDump, LookFault>
    requires mounted { All (λ r. r.mounted ≡ true) (told_reels (T.rack tapes.old)) }
    ensures dump { ReelsTold (told_reels (T.rack tapes.old)) → IfOk result (λ d. d ≡ known_dump (told_reels (T.rack tapes.old)) (known one.now)) }
    ensures tapes { ReadsRackByCause (result ≡ Err LookFault.TapeUnread) (T.rack tapes.old) (T.rack tapes.new) }
    ensures faults { IfErr result (λ e. (e ≡ LookFault.TapeUnread) ⊎ (e ≡ LookFault.NoMemory)) }
{
    let note = &one.dir.note;
    // No reel has more blocks, and the dump was read from one.
    if 65_534 < note.count {
        return Err(LookFault::NoMemory);
    }
    let blocks = note.count + 2;
    let place = TapeCopy {
        serial: one.serial,
        first: note.place,
    };
    match reel_sum(tapes, &place, 512 * blocks) {
        Ok(Some(sum)) => Ok(SealedDump {
            number: note.number,
            serial: one.serial,
            place: note.place,
            blocks,
            sum,
        }),
        Ok(None) => Err(LookFault::NoMemory),
        Err(fault) => Err(fault),
    }
}
