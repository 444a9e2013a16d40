//! The jobs at terminals. The seats are boxed: a crew is moved at every line, and a box is only a pointer.
ghost use Rattle.std.specs.Prelude.{◌≡◌, ◌∷◌, ◌++◌, ◌≤◌, [], map, true, IfOk, IfSome, None, OnErr, OnOk, is_some};
ghost use Rattle.g_mop.specs.Seats.{AreSeats, LogsIn, LogsOut, job_in_seat, left_at, seat_at, seat_taken, without_seat};
ghost use Rattle.g_job_table.specs.Seating.{seats_of};

use g_base::NoMemory;
use g_mop::{MopFault, Terminals};
use std::alloc::Global;
use std::marker::Model;

/// The seats in a box. Contracts see the seats.
#[derive(Drop)]
pub(crate) struct BoxedSeats {
    seats: Box<Terminals>,
}

impl Model for BoxedSeats {
    ghost use Rattle.std.specs.Prelude.{List};
    ghost use Rattle.g_mop.specs.declared.seat.Seat.{Seat};

    ghost Value = { List Seat };

    ghost view = { λ b. b.seats.value };
}

impl BoxedSeats {
    /// No terminal is in use.
    fn new(alloc: Global) -> Result<BoxedSeats, NoMemory>
        ensures { IfOk result (λ seats. seats ≡ []) }
    {
        let seats = Terminals::new(alloc)?;
        match Box::new(alloc, seats) {
            Ok(seats) => Ok(BoxedSeats { seats }),
            Err(_) => Err(NoMemory),
        }
    }

    /// The seats.
    fn get(&self) -> &Terminals
        ensures { result.now ≡ self.now }
    {
        &self.seats
    }

    /// As `Terminals::login`.
    fn login(&mut self, terminal: u8, job: u64) -> Result<(), MopFault>
        requires { (1 ≤ terminal) × (terminal ≤ 8) }
        ensures { LogsIn terminal job self.old self.new result }
    {
        self.seats.login(terminal, job)
    }

    /// As `Terminals::logout`.
    fn logout(&mut self, terminal: u8) -> Result<u64, MopFault>
        ensures left { LogsOut terminal self.old self.new result }
        ensures apart { AreSeats self.old }
    {
        self.seats.logout(terminal)
    }

    /// As `Terminals::ended`.
    fn ended(&mut self, job: u64)
        ensures { self.new ≡ without_seat job self.old }
    {
        self.seats.ended(job);
    }
}

/// Whether an unfinished job is at the terminal.
pub(crate) fn is_busy(terminals: &Option<BoxedSeats>, terminal: u8) -> bool
    ensures { result ≡ is_some (seat_at terminal (seats_of terminals.now)) }
{
    match terminals {
        Some(seats) => seats.get().is_busy(terminal),
        None => false,
    }
}

/// The number of the job of a terminal that wasn't logged out.
pub(crate) fn open_number(terminals: &Option<BoxedSeats>, terminal: u8) -> Option<u64>
    ensures number { result ≡ job_in_seat (seat_at terminal (seats_of terminals.now)) }
    ensures apart { AreSeats (seats_of terminals.now) }
{
    match terminals {
        Some(seats) => match seats.get().job_of(terminal) {
            Ok(number) => Some(number),
            Err(_) => None,
        },
        None => None,
    }
}

/// Creates the seats, if they don't exist and memory suffices. They are created at the first LOGIN, so that a run without terminals pays nothing.
pub(crate) fn make_seats(alloc: Global, terminals: &mut Option<BoxedSeats>) -> Result<(), NoMemory>
    ensures same { seats_of terminals.new ≡ seats_of terminals.old }
    ensures there { OnOk result (is_some terminals.new ≡ true) }
{
    if terminals.is_some() {
        return Ok(());
    }
    let seats = BoxedSeats::new(alloc)?;
    *terminals = Some(seats);
    Ok(())
}

/// The job takes the terminal's seat.
pub(crate) fn sit(terminals: &mut Option<BoxedSeats>, terminal: u8, job: u64)
    requires there { is_some terminals.old ≡ true }
    requires free { seat_at terminal (seats_of terminals.old) ≡ None }
    requires terminal { (1 ≤ terminal) × (terminal ≤ 8) }
    ensures { seats_of terminals.new ≡ seats_of terminals.old ++ seat_taken terminal job ∷ [] }
{
    match terminals {
        Some(seats) => match seats.login(terminal, job) {
            Ok(()) => {}
            Err(_) => unreachable!(),
        },
        None => unreachable!(),
    }
}

/// Logs the terminal out; returns the number of its job, if it had one that wasn't logged out.
pub(crate) fn log_out(terminals: &mut Option<BoxedSeats>, terminal: u8) -> Option<u64>
    ensures number { result ≡ job_in_seat (seat_at terminal (seats_of terminals.old)) }
    ensures some { IfSome result (λ n. seats_of terminals.new ≡ map (left_at terminal) (seats_of terminals.old)) }
    ensures none { result ≡ None → seats_of terminals.new ≡ seats_of terminals.old }
    ensures apart { AreSeats (seats_of terminals.old) }
{
    match terminals {
        Some(seats) => match seats.logout(terminal) {
            Ok(number) => Some(number),
            Err(_) => None,
        },
        None => None,
    }
}

/// The job is over, and its seat, if it has one, is free.
pub(crate) fn get_up(terminals: &mut Option<BoxedSeats>, job: u64)
    ensures { seats_of terminals.new ≡ without_seat job (seats_of terminals.old) }
{
    if let Some(seats) = terminals {
        seats.ended(job);
    }
}
