//! The results of a turn, on the job's own desk.
use crate::stop::Stop;
use crate::suspended::Suspended;
use g_macro::{EventNote, Levels, Outcome};
use g_mill::Program;
use g_name::Text;
use g_peri::Units;
use std::alloc::Global;
use std::marker::Model;

/// What commands change, and the results of the present turn so far. A job owns one permanently.
#[derive(Drop)]
pub struct Work {
    pub(crate) levels: Levels,
    pub(crate) outcome: Outcome,
    pub(crate) program: Option<Program>,
    /// The program's last run ended with a halt.
    pub(crate) halted: bool,
    /// A run of the program isn't over; and whether a WHENEVER began it.
    pub(crate) running: Option<bool>,
    pub(crate) units: Units,
    pub(crate) text: Text,
    pub(crate) orders: u32,
    pub(crate) blocks: u32,
    /// The turn's command set the outcome.
    pub(crate) sets: bool,
    /// The line that was taken last. If the turn waits, it resumes with this line if `waits_with_line` says so, otherwise with `kept`.
    pub(crate) line: Text,
    pub(crate) waits_with_line: bool,
    pub(crate) kept: Option<Suspended>,
    pub(crate) stop: Option<Stop>,
    /// The memory of the line before, reused for the next one. Contracts don't see it.
    pub(crate) line_room: Text,
}

impl Model for Work {
    ghost use Rattle.std.specs.Prelude.{option_map};
    ghost use Rattle.std.specs.Coded.{codes};
    ghost use Rattle.g_name.specs.contracts.path.Path as path;
    ghost use Rattle.g_turn.specs.State as state;
    ghost use Rattle.g_turn.specs.Values.{again_of, stop_of};

    ghost Value = { state.Work };

    ghost coded = { Prim.hlevel (codes, path.the_row.coded) };

    ghost view = { λ w. record {
      desk = record {
        levels = w.levels;
        outcome = w.outcome;
        program = w.program;
        halted = w.halted;
        running = w.running;
        units = w.units;
      };
      text = w.text;
      orders = w.orders;
      blocks = w.blocks;
      sets = w.sets;
      again = again_of w.waits_with_line w.line w.kept;
      stop = option_map stop_of w.stop;
    } };
}

impl Work {
    ghost use Rattle.std.specs.Prelude.{◌≡◌, None, [], false};
    ghost use Rattle.g_macro.specs.declared.outcome.EventNote.TheVariants as note;

    /// A desk with these levels and units and no program, on which no command was executed yet. Allocates nothing.
    pub fn new(alloc: Global, levels: Levels, units: Units) -> Work
        ensures { result ≡ record {
          desk = record {
            levels = levels;
            outcome = record { error = false; event = note.None };
            program = None;
            halted = false;
            running = None;
            units = units;
          };
          text = [];
          orders = 0;
          blocks = 0;
          sets = false;
          again = None;
          stop = None;
        } }
    {
        Work {
            levels,
            outcome: Outcome {
                error: false,
                event: EventNote::None,
            },
            program: None,
            halted: false,
            running: None,
            units,
            text: Text::new(alloc),
            orders: 0,
            blocks: 0,
            sets: false,
            line: Text::new(alloc),
            waits_with_line: false,
            kept: None,
            stop: None,
            line_room: Text::new(alloc),
        }
    }
}
