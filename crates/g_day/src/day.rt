//! What a run has at hand between two events, as one value.
use crate::system::System;
use g_disc::Disc;
use g_job_table::Crew;
use g_tape::Tapes;
use std::marker::Model;

/// The system, the crew and the count of ticks. Contracts see it as what is at hand (docs/DEFINITIONS.md, "g_day").
#[derive(Drop)]
pub struct Day<D: Disc, T: Tapes> {
    pub system: System<D, T>,
    pub crew: Crew,
    pub count: u64,
}

impl<D: Disc, T: Tapes> Model for Day<D, T> {
    ghost use Rattle.std.specs.Coded.{codes};
    ghost use Rattle.g_name.specs.contracts.path.Path as path;
    ghost use Rattle.g_day.specs.Parts.{Seen, seen};
    ghost use Rattle.g_day.specs.System.{facts_of};

    ghost Value = { Seen };

    ghost coded = { Prim.hlevel (codes, path.the_row.coded) };

    ghost view = { λ d. seen (facts_of D.state T.rack d.system) d.crew d.count };
}
