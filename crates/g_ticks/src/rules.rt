//! The rules of a run.
use g_rules::{Tariff, WeighRule};

/// The tariff of turns, and the rule that chooses the next job.
#[derive(Drop)]
pub struct Rules<'a, F, U> {
    pub tariff: &'a Tariff<F>,
    pub weigh: &'a WeighRule<U>,
}
