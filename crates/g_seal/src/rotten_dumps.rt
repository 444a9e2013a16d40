//! The sealed dumps whose blocks have other bytes.
ghost use Rattle.std.specs.Prelude.{◌≡◌, ◌≢◌, ◌⊎◌, ◌++◌, ◌∷◌, [], All, Err, IfErr, IfOk, OnErr, OnOk, map, true};
ghost use Rattle.g_lines.specs.Lines.{ended, text_of};
ghost use Rattle.g_store_meaning.specs.Meaning.{told_reels};
ghost use Rattle.g_store_meaning.specs.Reading.{ReelsTold};
ghost use Rattle.g_look.specs.Looks.{ReadsRackByCause};
ghost use Rattle.g_seal.specs.Rotten.{is_rotten, rotten_dump_line, rotten_dumps, without_sum};

use crate::SealedDump;
use crate::header::is_overwritten;
use crate::reel_state::reel_state;
use crate::versions::CopyState;
use g_base::NoMemory;
use g_entry::TapeCopy;
use g_look::{LookFault, push_told};
use g_name::Text;
use g_tape::Tapes;
use std::alloc::Global;

/// A sealed dump whose blocks have other bytes: its number, its reel, its first block there, and how many blocks it has. Without the sum it takes less than
/// half as much memory; there may be as many as dumps in the seal, once for each rack.
#[derive(Drop)]
pub struct RottenDump {
    pub number: u64,
    pub serial: u32,
    pub place: u32,
    pub blocks: u32,
}

impl SealedDump {
    /// The dump without its sum.
    fn without_sum(&self) -> RottenDump
        ensures { result ≡ without_sum self.now }
    {
        RottenDump {
            number: self.number,
            serial: self.serial,
            place: self.place,
            blocks: self.blocks,
        }
    }
}

/// The rotten ones among the dumps, in their order. `TapeUnread`, `NoMemory`.
pub(crate) fn rotten_dumps<T: Tapes>(
    alloc: Global,
    tapes: &mut T,
    dumps: &[SealedDump],
) -> Result<Vec<RottenDump>, LookFault>
    requires mounted { All (λ r. r.mounted ≡ true) (told_reels (T.rack tapes.old)) }
    ensures rotten { ReelsTold (told_reels (T.rack tapes.old)) → IfOk result (λ found. found.items ≡ rotten_dumps (told_reels (T.rack tapes.old)) dumps.now) }
    ensures tapes { ReadsRackByCause (result ≡ Err LookFault.TapeUnread) (T.rack tapes.old) (T.rack tapes.new) }
    ensures faults { IfErr result (λ e. (e ≡ LookFault.TapeUnread) ⊎ (e ≡ LookFault.NoMemory)) }
{
    let mut rotten = Vec::new(alloc);
    for dump in dumps {
        match push_if_rotten(&mut rotten, tapes, dump) {
            Ok(()) => {}
            Err(fault) => return Err(fault),
        }
    }
    Ok(rotten)
}

/// Adds the dump if it is rotten.
fn push_if_rotten<T: Tapes>(
    rotten: &mut Vec<RottenDump>,
    tapes: &mut T,
    dump: &SealedDump,
) -> Result<(), LookFault>
    requires mounted { All (λ r. r.mounted ≡ true) (told_reels (T.rack tapes.old)) }
    ensures rotten { ReelsTold (told_reels (T.rack tapes.old)) → OnOk result (rotten.new.items
        ≡ rotten.old.items ++ rotten_dumps (told_reels (T.rack tapes.old)) (dump.now ∷ [])) }
    ensures tapes { ReadsRackByCause (result ≡ Err LookFault.TapeUnread) (T.rack tapes.old) (T.rack tapes.new) }
    ensures faults { IfErr result (λ e. (e ≡ LookFault.TapeUnread) ⊎ (e ≡ LookFault.NoMemory)) }
{
    match is_rotten(tapes, dump) {
        Ok(true) => match rotten.push(dump.without_sum()) {
            Ok(()) => Ok(()),
            Err(_) => Err(LookFault::NoMemory),
        },
        Ok(false) => Ok(()),
        Err(fault) => Err(fault),
    }
}

/// Whether the dump is on its reel with other bytes.
fn is_rotten<T: Tapes>(tapes: &mut T, dump: &SealedDump) -> Result<bool, LookFault>
    requires mounted { All (λ r. r.mounted ≡ true) (told_reels (T.rack tapes.old)) }
    ensures value { ReelsTold (told_reels (T.rack tapes.old)) → IfOk result (λ is. is ≡ is_rotten (told_reels (T.rack tapes.old)) dump.now) }
    ensures tapes { ReadsRackByCause (result ≡ Err LookFault.TapeUnread) (T.rack tapes.old) (T.rack tapes.new) }
    ensures faults { IfErr result (λ e. (e ≡ LookFault.TapeUnread) ⊎ (e ≡ LookFault.NoMemory)) }
{
    // No reel has more blocks.
    if 65_536 < dump.blocks {
        return Ok(false);
    }
    let place = TapeCopy {
        serial: dump.serial,
        first: dump.place,
    };
    match reel_state(tapes, &place, 512 * dump.blocks, &dump.sum) {
        Ok(CopyState::Other) => match is_overwritten(tapes, dump) {
            Ok(overwritten) => Ok(!overwritten),
            Err(fault) => Err(fault),
        },
        Ok(_) => Ok(false),
        Err(fault) => Err(fault),
    }
}

/// Appends a line for each of these dumps to the text, with the words for its rack.
pub(crate) fn push_rotten_dumps(
    text: &mut Text,
    dumps: &[RottenDump],
    rack: &[u8],
) -> Result<(), NoMemory>
    ensures text { OnOk result (text.new ≡ text.old ++ text_of (map (rotten_dump_line rack.now) dumps.now)) }

    // Without a line no memory is needed.
    ensures memory { OnErr result (dumps.now ≢ []) }
{
    for dump in dumps {
        push_rotten_dump(text, dump, rack)?;
    }
    Ok(())
}

/// Appends the line of a rotten dump to the text.
fn push_rotten_dump(text: &mut Text, dump: &RottenDump, rack: &[u8]) -> Result<(), NoMemory>
    ensures { OnOk result (text.new ≡ text.old ++ ended (rotten_dump_line rack.now dump.now)) }
{
    push_told(text, b"ROTTEN DUMP ", dump.number)?;
    push_told(text, b" ON ", u64::from(dump.serial))?;
    text.extend(rack)?;
    text.push(b'\n')
}
