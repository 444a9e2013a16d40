//! A law about power losses. It has no code; its clause holds for every disc.
ghost use Rattle.g_disc.specs.Durable.{AllDurableIsUnchanged};

/// A power loss changes nothing if all blocks are durable.
pub fn durable_discs_stay()
    ensures { AllDurableIsUnchanged }
{}
