//! Theorems about what a power loss leaves of the devices of a store. No code is involved.
#![tactic(auto)]

ghost use Rattle.g_laws_power.specs.Devices.{DurableAreSafe, FormatIsSafe, LeftIsSafe, RefusalsKeepSafe, StepsKeepSafe, StopsLeaveSafe};
ghost use Rattle.g_laws_power.specs.Events.{EventsKeepSafe, ProcessKeepsSafe, StoppedCanBeSafe, StoppedEventsSurvive, StoppedProcessSurvives, StoppedStepsSurvive};
ghost use Rattle.g_laws_power.specs.Losses.{CallsKeepSafe, LeftCanBeSafe, LeftIsDurable, MakingIsSafe, StoppedCallsSurvive, StoreSurvives};
ghost use Rattle.g_laws_power.specs.Refusals.{RefusalsSurvive};

/// A power loss between two calls of a safe store leaves disc and rack with what the store would leave by going down. After a call
/// that was stopped it leaves them with what the call may leave. Each other call leaves the store safe. A store that START, RESTORE or
/// FORMAT makes of what is left is safe.
pub fn power_losses()
    ensures between { StoreSurvives }
    ensures stopped { StoppedCallsSurvive }
    ensures safe { CallsKeepSafe }
    ensures left { LeftIsDurable }
    ensures can { LeftCanBeSafe }
    ensures making { MakingIsSafe }
{}

/// The same of the operator's events that write no tape: the opening of a dump, MIGRATE, a mount and an unmount. PROCESS leaves a safe
/// store too, or, if a write failed, devices that can be safe again.
pub fn event_losses()
    ensures stopped { StoppedEventsSurvive }
    ensures safe { EventsKeepSafe }
    ensures can { StoppedCanBeSafe }
    ensures process { ProcessKeepsSafe }
{}

/// A step of an open dump leaves a safe store. If a write failed it leaves safe devices: as they are and after any power loss, a safe
/// store can be made on them. After a power loss they represent a state that the stopped step may leave.
pub fn step_losses()
    ensures safe { StepsKeepSafe }
    ensures stopped { StoppedStepsSurvive }
{}

/// After a power loss the devices of a stopped PROCESS belong together, and represent a state that it may leave.
pub fn process_losses()
    ensures { StoppedProcessSurvives }
{}

/// The devices of a safe store are safe when it goes down, and after a call or an event that a failed write stopped: as they are and
/// after any power loss, a safe store can be made on them. They stay safe if START, RESTORE or FORMAT refuses. FORMAT makes a safe
/// store of safe devices, although it doesn't make the rack durable. What a power loss leaves of safe devices is safe again. Devices
/// that belong together are safe if all of their blocks are durable.
pub fn device_losses()
    ensures stops { StopsLeaveSafe }
    ensures refusals { RefusalsKeepSafe }
    ensures format { FormatIsSafe }
    ensures left { LeftIsSafe }
    ensures durable { DurableAreSafe }
{}

/// If START, RESTORE or FORMAT makes no store of safe devices, a power loss leaves what it could have left before. If a failed write
/// stopped it, the loss leaves a state that it may lead to then.
pub fn refusal_losses()
    ensures { RefusalsSurvive }
{}
