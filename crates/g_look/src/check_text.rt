//! The text of a check.
ghost use Rattle.std.specs.Prelude.{◌≡◌, ◌∷◌, ◌++◌, ℕ, IfOk, IfSome, List, [], is_some};
ghost use Rattle.g_incr.specs.Layout.{Dump};
ghost use Rattle.g_lines.specs.Lines.{text_of};
ghost use Rattle.g_shelf.specs.CompletedDumps.{all_dumps};
ghost use Rattle.g_store_meaning.specs.Meaning.{told_reels};
ghost use Rattle.g_look.specs.SeenDumps.{IsSeen};
ghost use Rattle.g_look.specs.Standing.{IsSound, found_in};
ghost use Rattle.g_look.specs.Text.{disc_lines, rack_lines, verdict_line};

use crate::Verdict;
use crate::broken_text::push_verdict;
use crate::disc::Standing;
use crate::disc_text::push_disc;
use crate::rack_text::push_rack;
use crate::room::text_for;
use g_base::NoMemory;
use g_name::Text;
use g_restore::Found;
use g_tape::Tapes;
use std::alloc::Global;

/// The text of a check, each line with its byte 10.
pub(crate) fn check_text<T: Tapes>(
    alloc: Global,
    size: u32,
    standing: &Standing,
    found: &[Found],
    tapes: &T,
    verdict: &Verdict,
) -> Result<Text, NoMemory>
    requires { IfSome standing.now.dirs (λ f. IsSound size f.1) }
    ensures { IfOk result (λ text. (shelf : ℕ → List Dump) → IsSeen (told_reels (T.rack tapes.now)) shelf found.now
        → text ≡ text_of (disc_lines size standing.now.side (all_dumps shelf (told_reels (T.rack tapes.now))) (found_in standing.now.dirs)
        ++ rack_lines shelf (told_reels (T.rack tapes.now)) ++ verdict_line (is_some standing.now.dirs) verdict.now.broken verdict.now.missing ∷ [])) }
{
    let mut text = text_for(alloc, found)?;
    push_disc(&mut text, size, standing, found)?;
    push_rack(&mut text, tapes, found)?;
    push_verdict(&mut text, standing.dirs.is_some(), verdict)?;
    text.push(b'\n')?;
    Ok(text)
}
