//! The monitoring files of unfinished jobs.
ghost use Rattle.std.specs.Prelude.{◌≡◌, ◌++◌, IfOk, OnOk, codes, drop};
ghost use Rattle.g_job_table.specs.Seating.{pushed_of};
ghost use Rattle.g_lines.specs.Lines.{ended};
ghost use Rattle.g_run_model.specs.Texts.{broken_files, put_as, waiting_files, waiting_line};

use crate::crew::Crew;
use g_base::NoMemory;
use g_job::Job;
use g_monitor::push_number;
use g_mop::push_mark;
use g_name::Text;
use std::alloc::Global;

/// Appends the line of what a job waits for: of its reel, or, if it waits for none, of a line.
fn push_reel(text: &mut Text, wants: Option<u32>) -> Result<(), NoMemory>
    ensures { OnOk result (text.new ≡ text.old ++ waiting_line wants) }
{
    match wants {
        Some(serial) => push_number(text, b"WAITING TAPE ", u64::from(serial)),
        None => text.extend(b"WAITING LINE"),
    }
}

/// Appends a job's file and a last line, given with its byte 10; for a job at a terminal, whose file has been printed, only that line, with the
/// terminal's mark.
fn push_file(text: &mut Text, job: &Job, last: &[u8]) -> Result<(), NoMemory>
    ensures { OnOk result (text.new ≡ text.old ++ put_as job.now.terminal (job.now.monitor ++ last.now) last.now) }
{
    match job.terminal() {
        Some(terminal) => push_mark(text, terminal, last),
        None => {
            text.extend(job.monitor())?;
            text.extend(last)
        }
    }
}

/// The line of what a job waits for, with its byte 10.
fn waiting(alloc: Global, wants: Option<u32>) -> Result<Text, NoMemory>
    ensures { IfOk result (λ text. text ≡ ended (waiting_line wants)) }
{
    let mut line = Text::new(alloc);
    push_reel(&mut line, wants)?;
    line.push(b'\n')?;
    Ok(line)
}

/// Appends a job's file and the line of what it waits for.
fn push_waiting(alloc: Global, text: &mut Text, job: &Job) -> Result<(), NoMemory>
    ensures { OnOk result (text.new ≡ text.old
        ++ put_as job.now.terminal (job.now.monitor ++ ended (waiting_line job.now.wants)) (ended (waiting_line job.now.wants))) }
{
    let line = waiting(alloc, job.wants())?;
    push_file(text, job, line.as_slice())
}

/// Appends a job's file and the line `BREAK`.
fn push_broken(text: &mut Text, job: &Job) -> Result<(), NoMemory>
    ensures { OnOk result (text.new ≡ text.old
        ++ put_as job.now.terminal (job.now.monitor ++ ended (codes "BREAK")) (ended (codes "BREAK"))) }
{
    push_file(text, job, b"BREAK\n")
}

/// The part of a file after its first bytes.
fn behind(file: &[u8], before: usize) -> &[u8]
    ensures { result.now ≡ drop before file.now }
{
    if before <= file.len() {
        &file[before..]
    } else {
        &[]
    }
}

/// Appends the part of a job's file after its first bytes, with the terminal's mark, if the job is at a terminal.
pub(crate) fn push_added(text: &mut Text, job: &Job, before: usize) -> Result<(), NoMemory>
    ensures { OnOk result (text.new ≡ text.old ++ pushed_of job.now before) }
{
    match job.terminal() {
        Some(terminal) => push_mark(text, terminal, behind(job.monitor(), before)),
        None => Ok(()),
    }
}

/// The same of each of these jobs.
fn push_each_broken(text: &mut Text, jobs: &[Job]) -> Result<(), NoMemory>
    ensures { OnOk result (text.new ≡ text.old ++ broken_files jobs.now) }
{
    for job in jobs {
        push_broken(text, job)?;
    }
    Ok(())
}

/// Appends the file of each of these jobs with the line of what it waits for.
fn push_each_waiting(alloc: Global, text: &mut Text, jobs: &[Job]) -> Result<(), NoMemory>
    ensures { OnOk result (text.new ≡ text.old ++ waiting_files jobs.now) }
{
    for job in jobs {
        push_waiting(alloc, text, job)?;
    }
    Ok(())
}

impl Crew {
    /// Appends the monitoring files of all jobs, in order of number, each with the last line `BREAK`, as SHUT and a stop print them after their own
    /// line. For a job at a terminal, whose file has been printed, only that line. If memory runs out, a prefix of it may have been appended.
    pub fn push_broken_files(&self, text: &mut Text) -> Result<(), NoMemory>
        ensures { OnOk result (text.new ≡ text.old ++ broken_files self.now.jobs) }
    {
        push_each_broken(text, self.jobs())
    }

    /// Appends the monitoring files of all jobs, in order of number, as they are printed at the end of a run. The last line of each is
    /// `WAITING TAPE` and the serial of the reel that the job waits for, or `WAITING LINE`. For a job at a terminal, whose file has been
    /// printed, only that line. If memory runs out, a prefix of it may have been appended.
    pub fn push_waiting_files(&self, alloc: Global, text: &mut Text) -> Result<(), NoMemory>
        ensures { OnOk result (text.new ≡ text.old ++ waiting_files self.now.jobs) }
    {
        push_each_waiting(alloc, text, self.jobs())
    }
}
