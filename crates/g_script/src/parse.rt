//! Parsing a script, or one item of it.
ghost use Rattle.std.specs.Prelude.{IfOk};
ghost use Rattle.g_lines.specs.Lines.{lines_of};
ghost use Rattle.g_script.specs.Script.{IsOneItem, IsParsed};

use crate::read::{ItemRead, read_item};
use crate::{Script, Timed, Timeds};
use g_base::NoMemory;
use g_lines::Lines;
use std::alloc::Global;

/// Parses a script, whose lines end with byte 10; the last line may be missing it.
pub fn parse_script(alloc: Global, bytes: &[u8]) -> Result<Script, NoMemory>
    ensures { IfOk result (λ script. IsParsed (lines_of bytes.now) script.lines script.bad) }
{
    let mut lines = Lines::new(bytes);
    let mut said = Timeds::new(alloc);
    let mut before: u64 = 0;
    while let Some(line) = lines.next() {
        match read_item(alloc, line, &mut lines)? {
            ItemRead::Taken(next, count) => {
                said.push(next)?;
                before += count;
            }
            ItemRead::BadAt(place) => {
                let bad = Some(before + place);
                return Ok(Script { lines: said, bad });
            }
        }
    }
    Ok(Script {
        lines: said,
        bad: None,
    })
}

/// Parses a text that should be exactly one item; the last line may be missing its byte 10.
#[tactic(auto, using(crate::proofs::OnlyLemmas::none_alone, crate::proofs::OnlyLemmas::bad_alone))]
pub fn parse_item(alloc: Global, bytes: &[u8]) -> Result<Option<Timed>, NoMemory>
    ensures { IfOk result (λ next. IsOneItem (lines_of bytes.now) next) }
{
    let mut lines = Lines::new(bytes);
    let Some(line) = lines.next() else {
        return Ok(None);
    };
    match read_item(alloc, line, &mut lines)? {
        ItemRead::Taken(next, _count) => {
            if lines.is_empty() {
                Ok(Some(next))
            } else {
                Ok(None)
            }
        }
        ItemRead::BadAt(_place) => Ok(None),
    }
}
