//! The terminals in use.
ghost use Rattle.std.specs.Prelude.{◌≡◌, ◌≤◌, [], None, IfOk, MatchOption, is_some};
ghost use Rattle.g_mop.specs.Seats as seats;

use crate::fault::MopFault;
use crate::seat::Seat;
use arrayvec::ArrayVec;
use g_base::NoMemory;
use std::alloc::Global;
use std::marker::Model;

/// The terminals, 1 to 8, that have a job that isn't over. Contracts see them in order of their logins, each with the number of its job and whether
/// it was logged out.
#[derive(Drop)]
pub struct Terminals {
    seats: ArrayVec<Seat, 8>,
}

impl Model for Terminals {
    ghost use Rattle.std.specs.Prelude.{List};
    ghost use Rattle.g_mop.specs.Seats.{AreSeats};
    ghost use Rattle.g_mop.specs.declared.seat.Seat.{Seat};

    ghost Value = { List Seat };

    ghost view = { λ t. t.seats.items };

    ghost invariant = { λ t. AreSeats t.seats.items };
}

impl Terminals {
    /// All terminals are free.
    pub fn new(_alloc: Global) -> Result<Terminals, NoMemory>
        ensures { IfOk result (λ terminals. terminals ≡ []) }
    {
        Ok(Terminals {
            seats: ArrayVec::new(),
        })
    }

    /// Whether the job of this terminal isn't over yet.
    pub fn is_busy(&self, terminal: u8) -> bool
        ensures { result ≡ is_some (seats.seat_at terminal self.now) }
    {
        place_of(self.seats.as_slice(), terminal).is_some()
    }

    /// A job logs in at this terminal, from 1 to 8. Allocates nothing.
    ///
    /// `TerminalBusy` if the terminal's job isn't over, even if it was logged out; nothing changes then.
    pub fn login(&mut self, terminal: u8, job: u64) -> Result<(), MopFault>
        requires { (1 ≤ terminal) × (terminal ≤ 8) }
        ensures { seats.LogsIn terminal job self.old self.new result }
    {
        if self.is_busy(terminal) {
            return Err(MopFault::TerminalBusy(terminal));
        }
        self.seats.push(Seat {
            terminal,
            job,
            out: false,
        });
        Ok(())
    }

    /// The number of the job at this terminal.
    ///
    /// `NoTerminal` if the terminal has no job that isn't over, or was logged out.
    pub fn job_of(&self, terminal: u8) -> Result<u64, MopFault>
        ensures job { seats.IsJobOf terminal self.now result }
        ensures apart { seats.AreSeats self.now }
    {
        let all = self.seats.as_slice();
        match open_place(all, terminal) {
            Some(place) => Ok(all[place].job),
            None => Err(MopFault::NoTerminal(terminal)),
        }
    }

    /// Logs the terminal out, and returns the number of its job; the terminal is busy until that is over.
    ///
    /// `NoTerminal` if the terminal has no job that isn't over, or was logged out before; nothing changes then.
    pub fn logout(&mut self, terminal: u8) -> Result<u64, MopFault>
        ensures left { seats.LogsOut terminal self.old self.new result }
        ensures apart { seats.AreSeats self.old }
    {
        let Some(place) = open_place(self.seats.as_slice(), terminal) else {
            return Err(MopFault::NoTerminal(terminal));
        };
        let job = self.seats[place].job;
        self.seats[place].out = true;
        Ok(job)
    }

    /// The job of this number is over: its terminal, if it was at one, is free.
    pub fn ended(&mut self, job: u64)
        ensures { self.new ≡ seats.without_seat job self.old }
    {
        self.seats.retain(|seat| seat.job != job);
    }
}

/// The place of the terminal's seat.
fn place_of(all: &[Seat], terminal: u8) -> Option<usize>
    ensures { MatchOption result (seats.seat_at terminal all.now ≡ None) (seats.IsPlaceOf terminal all.now) }
{
    for (place, seat) in all.iter().enumerate() {
        if seat.terminal == terminal {
            return Some(place);
        }
    }
    None
}

/// The place of the terminal's seat, if it wasn't logged out.
fn open_place(all: &[Seat], terminal: u8) -> Option<usize>
    ensures { MatchOption result (seats.job_in_seat (seats.seat_at terminal all.now) ≡ None)
        (seats.IsOpenPlaceOf terminal all.now) }
{
    match place_of(all, terminal) {
        Some(place) => {
            if all[place].out {
                return None;
            }
            Some(place)
        }
        None => None,
    }
}
