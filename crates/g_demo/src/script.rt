//! The script of a demonstration, line by line.
ghost use Rattle.std.specs.Prelude.{◌≡◌, ◌≤◌, ◌^◌, ◌+◌, ◌%◌, ◌++◌, ℕ, IfOk, OnOk, [], replicate};
ghost use Rattle.g_demo.specs.Script.{behind_job, behind_round, behind_three, filled_line, job_lines, round_lines, rounds_lines, script_text};
ghost use Rattle.g_lines.specs.Lines.{text_of};

use crate::demonstration::Demonstration;
use crate::draws::Draws;
use crate::text::{push_line, push_turn_line};
use g_base::NoMemory;
use g_name::Text;
use std::alloc::Global;

/// The text of a demonstration's script (docs/DEFINITIONS.md, "g_demo").
pub fn script_of(alloc: Global, demo: &Demonstration) -> Result<Text, NoMemory>
    ensures { IfOk result (λ text. text ≡ script_text demo.now.number demo.now.rounds) }
{
    let mut text = with_room(alloc, demo.rounds)?;
    text.extend(b"0 FORMAT\n0 MOUNT 1\n")?;
    push_rounds(&mut text, demo.number, demo.rounds)?;
    text.extend(b"1000000000 DUMP 1\n1000000000 SHUT\n1000000000 RESTORE\n")?;
    text.extend(b"1000000000 JOB END,:MASTER,TIME 100\nLISTDIR\nENDJOB\n****\n")?;
    Ok(text)
}

/// An empty text with capacity for the script of this many rounds: each of the first thousand has at most 2,545 bytes, 2,440 of them its 40 lines of
/// 61.
fn with_room(alloc: Global, rounds: u32) -> Result<Text, NoMemory>
    ensures { IfOk result (λ text. text ≡ []) }
{
    let bytes = Vec::with_capacity(alloc, 2_545 * rounds as usize + 128)?;
    Ok(Text::from(bytes))
}

/// Appends the lines of the rounds.
fn push_rounds(text: &mut Text, number: u32, rounds: u32) -> Result<(), NoMemory>
    ensures { OnOk result (text.new ≡ text.old ++ text_of (rounds_lines number rounds)) }
{
    let mut draws = Draws::new(number);
    for i in 0..rounds {
        push_round(text, &mut draws, u64::from(i) + 1)?;
    }
    Ok(())
}

/// Appends the lines of one round.
fn push_round(text: &mut Text, draws: &mut Draws, round: u64) -> Result<(), NoMemory>
    requires { round ≤ 2 ^ 32 }
    ensures lines { OnOk result (text.new ≡ text.old ++ text_of (round_lines round draws.old.state)) }
    ensures state { OnOk result (draws.new.state ≡ behind_round round draws.old.state) }
{
    let made = draws.draw(20);
    let lines = draws.draw(40) + 1;
    let listed = draws.draw(20);
    push_job(text, round, made, lines, listed)?;
    push_behind_job(text, draws, round)
}

/// Appends the lines of a round's job.
fn push_job(text: &mut Text, round: u64, made: u32, lines: u32, listed: u32) -> Result<(), NoMemory>
    requires { round ≤ 2 ^ 32 }
    ensures { OnOk result (text.new ≡ text.old ++ text_of (job_lines round made lines listed)) }
{
    push_turn_line(text, 4 * round, b"JOB J", round, b",:MASTER,TIME 20")?;
    push_line(text, b"INPUT F", u64::from(made), b"(1)")?;
    push_filled(text, lines, round)?;
    text.extend(b"////\n")?;
    push_line(text, b"LISTFILE F", u64::from(listed), b"(1)")?;
    text.extend(b"ENDJOB\n****\n")
}

/// Appends this many lines of a round's letter.
fn push_filled(text: &mut Text, lines: u32, round: u64) -> Result<(), NoMemory>
    ensures { OnOk result (text.new ≡ text.old ++ text_of (replicate lines (filled_line round))) }
{
    let line = [letter(round); 60];
    for _ in 0..lines {
        text.extend(&line)?;
        text.push(b'\n')?;
    }
    Ok(())
}

/// The letter of a round's lines.
fn letter(round: u64) -> u8
    ensures { result ≡ 65 + round % 26 }
{
    b'A' + (round % 26) as u8
}

/// Appends the lines after a round's job.
fn push_behind_job(text: &mut Text, draws: &mut Draws, round: u64) -> Result<(), NoMemory>
    requires { round ≤ 2 ^ 32 }
    ensures lines { (state : ℕ) → draws.old.state ≡ behind_three state →
        OnOk result (text.new ≡ text.old ++ text_of (behind_job round state)) }
    ensures state { (state : ℕ) → draws.old.state ≡ behind_three state →
        OnOk result (draws.new.state ≡ behind_round round state) }
{
    match round % 50 {
        49 => {
            let file = draws.draw(20);
            push_turn_line(
                text,
                4 * round,
                b"MIGRATE :MASTER.F",
                u64::from(file),
                b"(1)",
            )
        }
        0 => push_line(text, b"", 4 * round, b" DUMP 1"),
        _ => Ok(()),
    }
}
