//! A run continues until it is over: a law of every run that `g_run_model` defines. No code is involved.
#![tactic(auto)]

ghost use Rattle.g_laws_progress.specs.Progress.{RunsGoOn};

use g_rules::{Charge, Standing, Usage};

/// If the tariff returns a charge for every usage, and the weigh rule a weight for every standing, then a run that isn't
/// over has a possible next move, for any previous moves. Therefore a run is never stuck before its end.
pub fn runs_go_on<F: Fn(&Usage) -> Charge, U: Fn(&Standing) -> u64>()
    ensures { (tariff : F) (rule : U) → RunsGoOn F.Fn tariff U.Fn rule }
{}
