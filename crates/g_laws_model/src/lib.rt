//! The store's events in simpler forms: each refusal an option, a failed write separately, and the versions that a call takes offline
//! as a list. This crate has only laws, which state that these forms are equivalent to the steps of g_store_model.
#![tactic(auto)]

ghost use Rattle.g_laws_model.specs.Calls.{CallsAreSimple, UnjamsTake};
ghost use Rattle.g_laws_model.specs.Events.{EventsAreSimple};

/// The step of a job's call is equivalent to its definition as a value: with its refusals in one list, and with the versions that it
/// takes offline, which are only as many candidates as are needed, the oldest first, or all. For every stamp up to which versions are
/// taken offline, exactly these are taken.
#[tactic(auto, using(crate::proofs::CallLemmas::calls_are_simple, crate::proofs::CallLemmas::unjams_take))]
pub fn calls_are_simple()
    ensures calls { CallsAreSimple }
    ensures unjams { UnjamsTake }
{}

/// The same for the operator's events of one commit, and for a mount and an unmount.
#[tactic(auto, using(crate::proofs::EventLemmas::events_are_simple))]
pub fn events_are_simple()
    ensures { EventsAreSimple }
{}
