//! What is printed for a stop in a turn that has written to a terminal's file.
ghost use Rattle.std.specs.Prelude.{◌≡◌, ◌++◌, IfOk, List, codes, ℕ};
ghost use Rattle.g_day.specs.Puts.{Puts};
ghost use Rattle.g_day.specs.Telling.{down_text, without_jobs};

use crate::progress::Failure;
use crate::puts::put_made;
use g_base::NoMemory;
use g_io::Sink;
use g_job_table::{Crew, push_operator_line};
use g_name::Text;

/// The store was stopped in a turn that has written to a terminal's file. That text is written, followed by the report of
/// the stop. Jobs and accounts are gone; the caller takes the store down.
pub fn stops_behind<K: Sink>(
    crew: &mut Crew,
    count: u64,
    made: Result<Text, NoMemory>,
    out: &mut K,
) -> Option<Failure>
    ensures gone { crew.new ≡ without_jobs crew.old }
    ensures put { (text : List ℕ) → IfOk made (λ t. t ≡ text)
        → Puts result (text ++ down_text count (codes "SYSTEM STOPPED") crew.old) (K.written out.old) (K.written out.new) (K.faults out.old) (K.faults out.new) }
{
    let made = down_behind(made, crew, count);
    crew.go_down();
    put_made(out, made)
}

/// A text, followed by the report of a stop.
fn down_behind(made: Result<Text, NoMemory>, crew: &Crew, count: u64) -> Result<Text, NoMemory>
    ensures { (text : List ℕ) → IfOk made (λ t. t ≡ text) → IfOk result (λ t. t ≡ text ++ down_text count (codes "SYSTEM STOPPED") crew.now) }
{
    let mut text = made?;
    push_operator_line(&mut text, count, b"SYSTEM STOPPED")?;
    crew.push_broken_files(&mut text)?;
    Ok(text)
}
