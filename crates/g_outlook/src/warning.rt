//! The text of the warning.
ghost use Rattle.std.specs.Prelude.{◌≡◌, ◌++◌, IfOk, IfSome, OnOk, Some};
ghost use Rattle.g_monitor.specs.Refusals.{IsPrinted};
ghost use Rattle.g_outlook.specs.Telling.{is_calm, missing_line, refusal_line, warning};

use g_base::NoMemory;
use g_look::{Outlook, push_told};
use g_monitor::push_fault;
use g_name::Text;
use g_plain::StoreFault;
use std::alloc::Global;

/// The text of the warning, which is empty if there is nothing to warn about. `NoMemory`.
pub(crate) fn warning_of(alloc: Global, outlook: &Outlook) -> Result<Text, NoMemory>
    requires printed { IfSome outlook.now.refusal IsPrinted }
    ensures { IfOk result (λ text. text ≡ warning outlook.now.refusal outlook.now.missing) }
{
    let mut text = Text::new(alloc);
    if is_calm(outlook) {
        return Ok(text);
    }
    push_refusal(&mut text, &outlook.refusal)?;
    push_missing(&mut text, outlook.missing)?;
    text.extend(
        b"george: put back the reel that was lost, moved away or replaced by an older copy; without it, START and PROCESS onto an empty reel; see docs/MANUAL.md\n",
    )?;
    Ok(text)
}

/// Whether there is nothing to warn about.
fn is_calm(outlook: &Outlook) -> bool
    ensures { result ≡ is_calm outlook.now.refusal outlook.now.missing }
{
    if outlook.missing.is_some() {
        return false;
    }
    match outlook.refusal {
        None => true,
        Some(StoreFault::NoDump) => true,
        Some(_) => false,
    }
}

/// Appends the line about a refusal to the text, if there is one.
fn push_refusal(text: &mut Text, refusal: &Option<StoreFault>) -> Result<(), NoMemory>
    requires printed { IfSome refusal.now IsPrinted }
    ensures { OnOk result (text.new ≡ text.old ++ refusal_line refusal.now) }
{
    match refusal {
        None => Ok(()),
        Some(fault) => push_fault_line(text, fault),
    }
}

/// Appends the line about this refusal to the text.
fn push_fault_line(text: &mut Text, fault: &StoreFault) -> Result<(), NoMemory>
    requires printed { IsPrinted fault.now }
    ensures { OnOk result (text.new ≡ text.old ++ refusal_line (Some fault.now)) }
{
    text.extend(b"george: a RESTORE would be refused: ")?;
    push_fault(text, fault)?;
    text.extend(b"\n")
}

/// Appends the line about a missing dump to the text, if one is missing.
fn push_missing(text: &mut Text, missing: Option<u64>) -> Result<(), NoMemory>
    ensures { OnOk result (text.new ≡ text.old ++ missing_line missing) }
{
    match missing {
        None => Ok(()),
        Some(number) => {
            push_told(text, b"george: a RESTORE would lack dump ", number)?;
            text.extend(b", which is on no reel of george.tapes\n")
        }
    }
}
