//! Compares the reels of two racks block by block.
ghost use Rattle.std.specs.Prelude.{◌≡◌, ◌⊎◌, ◌++◌, ◌∷◌, ℕ, All, IfOk, List, OnOk, [], true};
ghost use Rattle.g_base.specs.Counts.{Rose};
ghost use Rattle.g_lines.specs.Lines.{ended, text_of};
ghost use Rattle.g_tape.specs.Rack.{Rack};
ghost use Rattle.g_tape.specs.Reads.{OnlyReads, blocks_of};
ghost use Rattle.g_twins.specs.Twins.{AreExposed, AreMounted, alone_lines, alone_text, difference_text, lines_alone, lines_of_first, twin_lines, twin_text};

use crate::TwinsFault;
use g_base::NoMemory;
use g_duplex::first_difference;
use g_monitor::push_number;
use g_name::Text;
use g_tape::Tapes;
use std::alloc::Global;

/// What a line says of a reel that only the first rack has.
const NOT_IN_SECOND: &[u8] = b" HAS NO TWIN IN THE SECOND RACK";

/// What a line says of a reel that only the second rack has.
const NOT_IN_FIRST: &[u8] = b" HAS NO TWIN IN THE FIRST RACK";

/// A text with a line for each serial whose reels differ: the first block in which they do, or which rack lacks the reel. It is empty if
/// both racks hold the same. The reels of the first rack come first, by serial, and then those that only the second rack has. All reels
/// must be mounted. Each block is read at most once. `ReadFailed`, `NoMemory`; docs/MANUAL.md, "A second rack".
pub fn compare_twins<T: Tapes>(
    alloc: Global,
    first: &mut T,
    second: &mut T,
) -> Result<Text, TwinsFault>
    requires mounted { All (λ r. r.mounted ≡ true) (T.rack first.old).reels }
    requires mounted_too { All (λ r. r.mounted ≡ true) (T.rack second.old).reels }
    ensures text { IfOk result (λ text. AreExposed (T.rack first.old) → AreExposed (T.rack second.old)
        → text ≡ twin_text (T.rack first.old) (T.rack second.old)) }
    ensures first { OnlyReads (T.rack first.old) (T.rack first.new) }
    ensures second { OnlyReads (T.rack second.old) (T.rack second.new) }
    ensures failed { result ≡ Err TwinsFault.ReadFailed
        → Rose (T.rack first.old).read_faults (T.rack first.new).read_faults
        ⊎ Rose (T.rack second.old).read_faults (T.rack second.new).read_faults }
{
    let mut text = Text::new(alloc);
    push_first(&mut text, first, second)?;
    push_alone(&mut text, first, second)?;
    Ok(text)
}

/// Appends the lines of the reels of the first rack. `ReadFailed`, `NoMemory`.
fn push_first<T: Tapes>(text: &mut Text, first: &mut T, second: &mut T) -> Result<(), TwinsFault>
    requires mounted { AreMounted (T.rack first.old) }
    requires mounted_too { AreMounted (T.rack second.old) }
    ensures text { OnOk result (AreExposed (T.rack first.old) → AreExposed (T.rack second.old)
        → text.new ≡ text.old ++ text_of (lines_of_first (T.rack first.old) (T.rack second.old))) }
    ensures first { OnlyReads (T.rack first.old) (T.rack first.new) }
    ensures second { OnlyReads (T.rack second.old) (T.rack second.new) }
    ensures failed { result ≡ Err TwinsFault.ReadFailed
        → Rose (T.rack first.old).read_faults (T.rack first.new).read_faults
        ⊎ Rose (T.rack second.old).read_faults (T.rack second.new).read_faults }
{
    for i in 0..first.reels() {
        let serial = first.serial(i);
        match push_twins(text, first, second, serial) {
            Ok(()) => {}
            Err(fault) => return Err(fault),
        }
    }
    Ok(())
}

/// Appends the line of a serial, if its reels differ or one rack lacks it. `ReadFailed`, `NoMemory`.
fn push_twins<T: Tapes>(
    text: &mut Text,
    first: &mut T,
    second: &mut T,
    serial: u32,
) -> Result<(), TwinsFault>
    requires mounted { AreMounted (T.rack first.old) }
    requires mounted_too { AreMounted (T.rack second.old) }
    ensures text { OnOk result (AreExposed (T.rack first.old) → AreExposed (T.rack second.old)
        → text.new ≡ text.old ++ text_of (twin_lines serial (blocks_of serial (T.rack first.old)) (blocks_of serial (T.rack second.old)))) }
    ensures first { OnlyReads (T.rack first.old) (T.rack first.new) }
    ensures second { OnlyReads (T.rack second.old) (T.rack second.new) }
    ensures failed { result ≡ Err TwinsFault.ReadFailed
        → Rose (T.rack first.old).read_faults (T.rack first.new).read_faults
        ⊎ Rose (T.rack second.old).read_faults (T.rack second.new).read_faults }
{
    match (first.length(serial), second.length(serial)) {
        (Ok(_), Ok(_)) => match first_difference(first, second, serial) {
            Ok(None) => Ok(()),
            Ok(Some(k)) => {
                push_difference(text, serial, k)?;
                Ok(())
            }
            Err(_) => Err(TwinsFault::ReadFailed),
        },
        (Ok(_), Err(_)) => {
            push_named(text, serial, NOT_IN_SECOND)?;
            Ok(())
        }
        _ => Ok(()),
    }
}

/// Appends the lines of the reels that only the second rack has.
fn push_alone<T: Tapes>(text: &mut Text, first: &T, second: &T) -> Result<(), NoMemory>
    ensures { OnOk result (AreExposed (T.rack first.now) → text.new ≡ text.old ++ text_of (lines_alone (T.rack first.now) (T.rack second.now))) }
{
    for i in 0..second.reels() {
        match push_if_alone(text, first, second.serial(i)) {
            Ok(()) => {}
            Err(fault) => return Err(fault),
        }
    }
    Ok(())
}

/// Appends the line of a reel, if the first rack has none of this serial.
fn push_if_alone<T: Tapes>(text: &mut Text, first: &T, serial: u32) -> Result<(), NoMemory>
    ensures { OnOk result (AreExposed (T.rack first.now) → text.new ≡ text.old ++ text_of (alone_lines serial (blocks_of serial (T.rack first.now)))) }
{
    match first.length(serial) {
        Ok(_) => Ok(()),
        Err(_) => push_named(text, serial, NOT_IN_FIRST),
    }
}

/// Appends the line of the first block in which two reels differ.
fn push_difference(text: &mut Text, serial: u32, k: u32) -> Result<(), NoMemory>
    ensures { OnOk result (text.new ≡ text.old ++ ended (difference_text serial k)) }
{
    push_number(text, b"TWINS OF TAPE ", u64::from(serial))?;
    push_number(text, b" DIFFER AT ", u64::from(k))?;
    text.push(b'\n')
}

/// Appends the line of a reel that one rack lacks.
fn push_named(text: &mut Text, serial: u32, lacks: &[u8]) -> Result<(), NoMemory>
    ensures { OnOk result (text.new ≡ text.old ++ ended (alone_text lacks.now serial)) }
{
    push_number(text, b"TAPE ", u64::from(serial))?;
    text.extend(lacks)?;
    text.push(b'\n')
}
