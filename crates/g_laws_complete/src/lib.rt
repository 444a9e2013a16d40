//! Theorems about how a store answers: a call that can be done is done, and a store whose devices expose nothing represents
//! a state. No code is involved.
#![tactic(auto)]

ghost use Rattle.g_laws_complete.specs.Completeness.{CallsAreComplete};
ghost use Rattle.g_laws_complete.specs.UntoldStores.{RealHaveStates, UntoldHaveStates};

use g_store_model::refusals_are_plain;

/// If no fault counter rose, and the plain step grants a call, its file is on the disc or its reel mounted, and taking
/// files off the disc up to some stamp yields enough room, then the call has the plain answer, unless memory ran out. (If
/// the devices don't expose their contents, its copy may also be lost.)
pub fn calls_are_complete()
    ensures { CallsAreComplete }
{
    refusals_are_plain();
}

/// A store that is up and whose devices don't expose all their contents represents a state, whether or not they belong
/// together.
pub fn untold_have_states()
    ensures some { UntoldHaveStates }
    ensures real { RealHaveStates }
{}
