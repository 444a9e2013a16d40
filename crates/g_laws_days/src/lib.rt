//! Invocations of the program on one pair of devices, one after another: what they print, without a word about what lies on the devices. A law
//! of every run that `g_run_model` defines. No code is involved.
#![tactic(auto)]

ghost use Rattle.g_laws_days.specs.Invocations.{InvocationsLead};

use g_laws_runs::devices_have_one_state;
use g_rules::{Charge, Standing, Usage};

/// From new devices on, invocations lead from state to state of one store, which begins without a filestore: each one runs its script on the
/// state that the one before has left, or does nothing.
pub fn invocations_lead<F: Fn(&Usage) -> Charge, U: Fn(&Standing) -> u64>()
    ensures { (tariff : F) (rule : U) → InvocationsLead F.Fn tariff U.Fn rule }
{
    devices_have_one_state();
}
