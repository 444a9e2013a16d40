//! The end of a turn: its charge, its last line, and the job afterwards.
ghost use Rattle.std.specs.Prelude.{◌≡◌, ◌+◌, ◌++◌, min, None, Some, false, option_map, true, IfOk, OnErr, OnOk};
ghost use Rattle.g_rules.specs.Tariff.{IsTariff};
ghost use Rattle.g_job.specs.Beginning.{room_of};
ghost use Rattle.g_turn.specs.Bounds.{IsWithin};
ghost use Rattle.g_job.specs.TurnEnd as ends;
ghost use Rattle.g_job.specs.Ending.{IsClear, IsWaiting, turn_by, up_text, with_last};
ghost use Rattle.g_job.specs.JobValue.{job_of};
ghost use Rattle.g_job.specs.Rules.{IsGoneOnWith, IsJob};
ghost use Rattle.g_job.specs.Terminal.{is_ready};
ghost use Rattle.g_turn.specs.State.{Work};
ghost use Rattle.g_turn.specs.Values.{stop_of};
ghost use Rattle.g_lines.specs.Lines.{ended};
ghost use Rattle.g_monitor.specs.JobLines.{job_line};

use crate::parts::Parts;
use g_base::NoMemory;
use g_monitor::JobLine;
use g_name::Text;
use g_rules::{Charge, Tariff, Turn, Usage};
use g_turn::{Stop, Work};
use std::alloc::Global;

impl Parts {
    /// Ends a turn by the results of its work, which are used in place.
    // Inlined, like the three functions below: every turn calls them, and their results are used where they are computed.
    #[inline(always)]
    pub(crate) fn end<F: Fn(&Usage) -> Charge>(
        &mut self,
        alloc: Global,
        tariff: &Tariff<F>,
    ) -> Result<Turn, NoMemory>
        requires open { self.old.over ≡ false }
        requires clear { IsClear (job_of self.old) }
        requires rules { IsJob (job_of self.old) }
        requires ready { self.old.ready ≡ is_ready (job_of self.old) }
        requires tariff { IsTariff F.Fn tariff.now }
        requires within { IsWithin (room_of (job_of self.old)) self.old.work }
        requires gone { IsGoneOnWith self.old.monitor self.old.work }
        ensures ok { IfOk result (λ turn.
            ends.IsTurn F.Fn tariff.now (job_of self.old) self.old.work turn (job_of self.new)) }
        ensures err { OnErr result (job_of self.new ≡ job_of self.old) }
        ensures ready { self.new.ready ≡ is_ready (job_of self.new) }
    {
        let stop = self.work.stop();
        self.end_by(alloc, tariff, stop)
    }

    /// Ends a turn whose work is over for this reason, or isn't over.
    #[inline(always)]
    fn end_by<F: Fn(&Usage) -> Charge>(
        &mut self,
        alloc: Global,
        tariff: &Tariff<F>,
        stop: Option<Stop>,
    ) -> Result<Turn, NoMemory>
        requires open { self.old.over ≡ false }
        requires clear { IsClear (job_of self.old) }
        requires rules { IsJob (job_of self.old) }
        requires ready { self.old.ready ≡ is_ready (job_of self.old) }
        requires tariff { IsTariff F.Fn tariff.now }
        requires within { IsWithin (room_of (job_of self.old)) self.old.work }
        requires gone { IsGoneOnWith self.old.monitor self.old.work }
        requires stop { option_map stop_of stop ≡ self.old.work.stop }
        ensures ok { IfOk result (λ turn.
            ends.IsTurn F.Fn tariff.now (job_of self.old) self.old.work turn (job_of self.new)) }
        ensures err { OnErr result (job_of self.new ≡ job_of self.old) }
        ensures ready { self.new.ready ≡ is_ready (job_of self.new) }
    {
        match stop {
            Some(Stop::Waits(serial)) => {
                self.wait_for(alloc, serial);
                Ok(Turn::Wants { serial })
            }
            Some(Stop::Broken) => {
                self.break_off()?;
                Ok(Turn::Broken)
            }
            Some(Stop::Full | Stop::Done) | None => match self.charge(tariff, stop) {
                Ok(turn) => Ok(turn),
                Err(NoMemory) => Err(NoMemory),
            },
        }
    }

    /// Charges a turn by the tariff.
    #[inline(always)]
    fn charge<F: Fn(&Usage) -> Charge>(
        &mut self,
        tariff: &Tariff<F>,
        stop: Option<Stop>,
    ) -> Result<Turn, NoMemory>
        requires open { self.old.over ≡ false }
        requires clear { IsClear (job_of self.old) }
        requires rules { IsJob (job_of self.old) }
        requires tariff { IsTariff F.Fn tariff.now }
        requires within { IsWithin (room_of (job_of self.old)) self.old.work }
        requires stop { option_map stop_of stop ≡ self.old.work.stop }
        requires charged { ends.is_free (option_map stop_of stop) ≡ false }
        ensures ok { IfOk result (λ turn.
            ends.IsTurn F.Fn tariff.now (job_of self.old) self.old.work turn (job_of self.new)) }
        ensures err { OnErr result (job_of self.new ≡ job_of self.old) }
        ensures ready { (self.new.ready ≡ self.old.ready)
            × (is_ready (job_of self.new) ≡ is_ready (job_of self.old)) }
    {
        let usage = Usage {
            orders: self.work.orders(),
            blocks: self.work.blocks(),
        };
        let charge = tariff.charge(&usage);
        match self.settle(charge, stop) {
            Ok(turn) => Ok(turn),
            Err(NoMemory) => Err(NoMemory),
        }
    }

    /// The job waits for the reel of this serial, and stores what its work resumes with.
    // A turn rarely calls it: as a function of its own it adds no stack space to others.
    #[inline(never)]
    fn wait_for(&mut self, alloc: Global, serial: u32)
        requires { IsWaiting (job_of self.old) self.old.work.again }
        ensures job { job_of self.new ≡ record (job_of self.old) {
          pending = self.old.work.again;
          wants = Some serial;
        } }
        ensures ready { self.new.ready ≡ is_ready (job_of self.new) }
    {
        self.again = self.work.take_again(alloc);
        self.wants = Some(serial);
        self.ready = true;
    }

    /// The job was stopped: it takes no more turns.
    // Called at most once in a job: as a function of its own it adds no stack space to other turns.
    #[inline(never)]
    fn break_off(&mut self) -> Result<(), NoMemory>
        ensures ok { OnOk result (self.new ≡ record self.old {
          monitor = self.old.monitor ++ self.old.work.text;
          over = true;
        }) }
        ensures err { OnErr result (self.new ≡ self.old) }
    {
        self.monitor.extend(self.work.text().as_slice())?;
        self.over = true;
        Ok(())
    }

    /// Charges a turn, of each kind at most what is left. If the job ends, its last line is appended to the turn's text.
    #[inline(always)]
    fn settle(&mut self, charge: Charge, stop: Option<Stop>) -> Result<Turn, NoMemory>
        requires open { self.old.over ≡ false }
        requires clear { IsClear (job_of self.old) }
        requires rules { IsJob (job_of self.old) }
        requires charged { ends.is_free (option_map stop_of stop) ≡ false }
        ensures ok { (w : Work) → w.desk ≡ self.old.work.desk → w.text ≡ self.old.work.text
            → IfOk result (λ turn. (turn, job_of self.new)
            ≡ ends.charged_end (option_map stop_of stop) (job_of self.old) w charge) }
        ensures err { OnErr result (job_of self.new ≡ job_of self.old) }
        ensures ready { (self.new.ready ≡ self.old.ready)
            × (is_ready (job_of self.new) ≡ is_ready (job_of self.old)) }
    {
        let last = self.last_line(stop, charge);
        let units = at_most_left(charge.units, self.allowance - self.used);
        let money = at_most_left(charge.money, self.money - self.used_money);
        add(&mut self.monitor, &mut self.work, last)?;
        self.used += units;
        self.used_money += money;
        self.turns += 1;
        self.over = last.is_some();
        Ok(turn_of(units, money, last.is_some()))
    }

    /// The last line of the job after a turn of this charge, if the job ends.
    fn last_line(&self, stop: Option<Stop>, charge: Charge) -> Option<JobLine>
        requires rules { IsJob (job_of self.now) }
        requires charged { ends.is_free (option_map stop_of stop) ≡ false }
        ensures line { (w : Work) → option_map job_line result
            ≡ ends.last_line (option_map stop_of stop) (job_of self.now) charge (ends.charged (job_of self.now) w charge) }
    {
        let used = self.used + at_most_left(charge.units, self.allowance - self.used);
        let used_money = self.used_money + at_most_left(charge.money, self.money - self.used_money);
        match stop {
            Some(Stop::Full) => Some(JobLine::Full),
            Some(_) => Some(JobLine::End(used)),
            None => {
                let time_up = self.allowance - self.used <= charge.units;
                let money_up = self.money - self.used_money < charge.money;
                up_line(time_up, money_up, used, used_money)
            }
        }
    }
}

/// The charge: that of the tariff, limited to what is left.
fn at_most_left(charge: u64, left: u64) -> u64
    ensures { result ≡ min charge left }
{
    if charge <= left { charge } else { left }
}

/// The last line if TIME or MONEY is used up.
fn up_line(time_up: bool, money_up: bool, used: u64, used_money: u64) -> Option<JobLine>
    ensures { option_map job_line result ≡ up_text time_up money_up used used_money }
{
    if time_up {
        Some(JobLine::TimeUp(used))
    } else if money_up {
        Some(JobLine::MoneyUp(used_money))
    } else {
        None
    }
}

/// Appends a turn's text to a monitoring file, followed by the last line, if there is one. The last line is appended to the turn's text first, in
/// whose memory it is built. If memory runs out, the file is unchanged.
fn add(monitor: &mut Text, work: &mut Work, last: Option<JobLine>) -> Result<(), NoMemory>
    ensures ok { OnOk result (monitor.new ≡ with_last (monitor.old ++ work.old.text) (option_map ended (option_map job_line last))) }
    ensures err { OnErr result (monitor.new ≡ monitor.old) }
    ensures desk { work.new.desk ≡ work.old.desk }
{
    push_last(work, last)?;
    add_text(monitor, work.text())
}

/// Appends a last line with its byte 10 to the turn's text, if there is one.
fn push_last(work: &mut Work, last: Option<JobLine>) -> Result<(), NoMemory>
    ensures ok { OnOk result (work.new.text ≡ with_last work.old.text (option_map ended (option_map job_line last))) }
    ensures desk { work.new.desk ≡ work.old.desk }
{
    match last {
        Some(line) => work.push_last(line),
        None => Ok(()),
    }
}

/// Appends a text to a monitoring file, unless it is empty, as it is for most turns of a program.
fn add_text(monitor: &mut Text, text: &Text) -> Result<(), NoMemory>
    ensures ok { OnOk result (monitor.new ≡ monitor.old ++ text.now) }
    ensures err { OnErr result (monitor.new ≡ monitor.old) }
{
    if text.as_slice().is_empty() {
        return Ok(());
    }
    monitor.extend(text.as_slice())
}

/// The result of the turn: the job continues, or has ended.
fn turn_of(units: u64, money: u64, ends: bool) -> Turn
    ensures { result ≡ turn_by units money ends }
{
    if ends {
        Turn::Ended { units, money }
    } else {
        Turn::Ran { units, money }
    }
}
