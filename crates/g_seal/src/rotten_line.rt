//! The lines of rotten files as text.
ghost use Rattle.std.specs.Prelude.{◌≡◌, ◌++◌, OnOk};
ghost use Rattle.g_lines.specs.Lines.{ended, text_of};
ghost use Rattle.g_seal.specs.Rotten.{nowhere_text, rotten_file_line, tape_if, twin_if, version_lines};

use crate::lines::{push_online, push_taped};
use crate::versions::FoundVersion;
use g_base::NoMemory;
use g_entry::TapeCopy;
use g_look::push_told;
use g_monitor::push_full;
use g_name::Text;

/// Appends the line of a version to the text, if it was found and is rotten.
pub(crate) fn push_version(text: &mut Text, found: &Option<FoundVersion>) -> Result<(), NoMemory>
    ensures { OnOk result (text.new ≡ text.old ++ text_of (version_lines found.now)) }
{
    match found {
        Some(version) => {
            if version.disc.is_other() || version.tape.is_other() {
                push_rotten_file(text, version)
            } else {
                Ok(())
            }
        }
        None => Ok(()),
    }
}

/// Appends the line of a rotten file to the text.
fn push_rotten_file(text: &mut Text, version: &FoundVersion) -> Result<(), NoMemory>
    ensures { OnOk result (text.new ≡ text.old ++ ended (rotten_file_line version.now)) }
{
    text.extend(b"ROTTEN FILE ")?;
    push_full(text, &version.full)?;
    push_told(text, b" STAMP ", version.stamp)?;
    push_online(text, version.disc.is_other())?;
    push_tape_if(text, version.tape.is_other(), &version.place)?;
    push_twin_if(text, version.twin.is_other(), &version.place)?;
    text.extend(b" GOOD")?;
    push_online(text, version.disc.is_sealed())?;
    push_tape_if(text, version.tape.is_sealed(), &version.place)?;
    push_twin_if(text, version.twin.is_sealed(), &version.place)?;
    push_nowhere(text, version)?;
    text.push(b'\n')
}

/// Appends the place on tape to the text, if it is listed.
fn push_tape_if(text: &mut Text, listed: bool, place: &Option<TapeCopy>) -> Result<(), NoMemory>
    ensures { OnOk result (text.new ≡ text.old ++ tape_if listed place.now) }
{
    if listed {
        push_taped(text, place)
    } else {
        Ok(())
    }
}

/// Appends the place in the second rack to the text, if it is listed.
fn push_twin_if(text: &mut Text, listed: bool, place: &Option<TapeCopy>) -> Result<(), NoMemory>
    ensures { OnOk result (text.new ≡ text.old ++ twin_if listed place.now) }
{
    if listed {
        push_taped(text, place)?;
        text.extend(b" IN THE SECOND RACK")
    } else {
        Ok(())
    }
}

/// Appends to the text that no copy has the sealed bytes, if none has.
fn push_nowhere(text: &mut Text, version: &FoundVersion) -> Result<(), NoMemory>
    ensures { OnOk result (text.new ≡ text.old ++ nowhere_text version.now) }
{
    if version.disc.is_sealed() || version.tape.is_sealed() || version.twin.is_sealed() {
        Ok(())
    } else {
        text.extend(b" NOWHERE")
    }
}
