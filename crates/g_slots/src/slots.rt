//! The current slot of a disc, and the commit of a new image into the other one.

ghost use Rattle.std.specs.Prelude.{◌≡◌, ◌≢◌, ◌+◌, ◌<◌, ◌⊎◌, ℕ, IfOk, OnOk, OnErr, Some, length, slice_get, true};
ghost use Rattle.std.specs.Option.{ForSome};
ghost use Rattle.g_base.specs.ToldContent.{Changes};
ghost use Rattle.g_disc.specs.Disc.{GateFailed, HasSynced, ReadsOnly, StaySyncable, WritesOnly, is_durable};
ghost use Rattle.g_disc.specs.Durable.{AreDurable, DirtiesOnly, PowerLossLeaves};
ghost use Rattle.g_slots.specs.Layout.{GateNames, GateWritten, IsInSlot, current, other, slot, start_of};
ghost use Rattle.g_slots.specs.Commit.{Commits, CommitsOrNot, Fills, Flips, KeepsCurrent, Prepares, Tears};

use crate::gate::Gate;
use crate::{Side, SlotFault};
use g_base::Block;
use g_disc::Disc;
use std::marker::Model;

/// The current slot of a disc, as its gate names it. Contracts see the side. It isn't `Copy`: a copy
/// from before a commit would name the wrong slot.
#[derive(Drop)]
pub struct Slots {
    current: Side,
    gate: Gate,
}

impl Model for Slots {
    ghost use Rattle.g_slots.specs.declared.side.Side.{Side};

    ghost Value = { Side };

    ghost view = { λ slots. slots.current };
}

impl Slots {
    /// Reads the gate.
    pub fn find<D: Disc>(disc: &mut D) -> Result<Slots, SlotFault>
        requires size { 2177 < (D.state disc.old).size }
        ensures ok { IfOk result (λ slots. GateNames slots (D.state disc.old).held) }
        ensures counts { ReadsOnly (D.state disc.old) (D.state disc.new) result }
        ensures only { OnErr result (result ≡ Err SlotFault.ReadFault) }
    {
        let mut gate = [0; 512];
        disc.read(0, &mut gate)?;
        Ok(Slots {
            current: Side::named_by(&gate),
            gate: Gate::new(),
        })
    }

    /// The current slot.
    pub fn side(&self) -> Side
        ensures { result ≡ self.now }
    {
        self.current
    }

    /// Reads block `k` of the current slot. On `ReadFault` the contents of `into` are unspecified.
    pub fn read<D: Disc>(&self, disc: &mut D, k: u32, into: &mut Block) -> Result<(), SlotFault>
        requires place { k < 1088 }
        requires size { 2177 < (D.state disc.old).size }
        requires gate { GateNames self.now (D.state disc.old).held }
        ensures ok { OnOk result (ForSome (D.state disc.old).held
            (λ blocks. slice_get (slot self.now blocks) k ≡ Some into.new)) }
        ensures counts { ReadsOnly (D.state disc.old) (D.state disc.new) result }
        ensures only { OnErr result (result ≡ Err SlotFault.ReadFault) }
    {
        disc.read(self.current.start() + k, into)?;
        Ok(())
    }

    /// Writes block `k` of the slot that isn't current. On `Stopped` that block may be torn; all others
    /// are unchanged.
    pub fn prepare<D: Disc>(&self, disc: &mut D, k: u32, from: &Block) -> Result<(), SlotFault>
        requires place { k < 1088 }
        requires size { 2177 < (D.state disc.old).size }
        requires gate { GateNames self.now (D.state disc.old).held }
        ensures ok { OnOk result (Changes (Prepares self.now k from.now)
            (D.state disc.old).held (D.state disc.new).held) }
        ensures stopped { OnErr result
            (Changes (KeepsCurrent self.now) (D.state disc.old).held (D.state disc.new).held) }
        ensures torn { OnErr result
            (Changes (Tears self.now k) (D.state disc.old).held (D.state disc.new).held) }
        ensures counts { WritesOnly 1 (D.state disc.old) (D.state disc.new) result }
        ensures dirties { DirtiesOnly (λ j. j ≡ start_of (other self.now) + k)
            (D.state disc.old) (D.state disc.new) result }
        ensures only { OnErr result (result ≡ Err SlotFault.Stopped) }
    {
        disc.write(self.current.other().start() + k, from)?;
        Ok(())
    }

    /// Writes the gate, so that the other slot is current. On `Stopped` the gate may name either slot,
    /// and `find` must be called before any other call.
    pub fn flip<D: Disc>(&mut self, disc: &mut D) -> Result<(), SlotFault>
        requires size { 2177 < (D.state disc.old).size }
        requires gate { GateNames self.old (D.state disc.old).held }
        ensures any { Changes Flips (D.state disc.old).held (D.state disc.new).held }
        ensures side { OnOk result (self.new ≡ other self.old) }
        ensures gate { OnOk result (GateNames self.new (D.state disc.new).held) }
        ensures written { OnOk result (GateWritten self.new (D.state disc.new).held) }
        ensures same { OnErr result (self.new ≡ self.old) }
        ensures counts { WritesOnly 1 (D.state disc.old) (D.state disc.new) result }

        // If it is Ok, everything written before is durable, and so is the gate.
        ensures synced { OnOk result (HasSynced (D.state disc.old) (D.state disc.new)
            × (is_durable (D.state disc.new) 0 ≡ true)) }
        ensures gate_failed { OnErr result (GateFailed (D.state disc.old) (D.state disc.new)) }
        ensures durable { (j : ℕ) → j ≢ 0 → is_durable (D.state disc.old) j ≡ true
            → is_durable (D.state disc.new) j ≡ true }
        ensures syncable { OnOk result (StaySyncable (D.state disc.old) (D.state disc.new)) }
        ensures only { OnErr result (result ≡ Err SlotFault.Stopped) }
    {
        let next = self.current.other();
        let _size = disc.size();
        self.gate.set(next);
        disc.write(0, self.gate.block())?;
        self.current = next;
        Ok(())
    }

    /// Writes the image into the slot that isn't current, block by block, and then the gate. On `Stopped`
    /// the current slot is unchanged, or is the whole image; only `find` can tell which.
    pub fn commit<D: Disc>(&mut self, disc: &mut D, image: &[Block]) -> Result<(), SlotFault>
        requires image { length image.now ≡ 1088 }
        requires size { 2177 < (D.state disc.old).size }
        requires gate { GateNames self.old (D.state disc.old).held }
        ensures ok { OnOk result
            (Changes (Commits self.old image.now) (D.state disc.old).held (D.state disc.new).held) }
        ensures side { OnOk result (self.new ≡ other self.old) }
        ensures gate { OnOk result (GateNames self.new (D.state disc.new).held) }
        ensures written { OnOk result (GateWritten self.new (D.state disc.new).held) }
        ensures stopped { OnErr result
            (Changes (CommitsOrNot image.now) (D.state disc.old).held (D.state disc.new).held) }
        ensures same { OnErr result (self.new ≡ self.old) }
        ensures counts { WritesOnly 1089 (D.state disc.old) (D.state disc.new) result }

        // Whatever a power loss leaves: after Ok the image is current, and the other slot is unchanged. After
        // Stopped the current slot is unchanged, or is the whole image.
        ensures survives { OnOk result (PowerLossLeaves (λ _ left. current left ≡ image.now)
            (D.state disc.old) (D.state disc.new)) }
        ensures old_survives { AreDurable (IsInSlot self.old) (D.state disc.old)
            → OnOk result (PowerLossLeaves (λ before left. slot self.old left ≡ slot self.old before)
            (D.state disc.old) (D.state disc.new)) }
        ensures one_survives { is_durable (D.state disc.old) 0 ≡ true
            → AreDurable (IsInSlot self.old) (D.state disc.old)
            → OnErr result (PowerLossLeaves (λ before left. (current left ≡ current before) ⊎ (current left ≡ image.now))
            (D.state disc.old) (D.state disc.new)) }
        ensures only { OnErr result (result ≡ Err SlotFault.Stopped) }
    {
        let _size = disc.size();
        self.fill(disc, image)?;
        self.flip(disc)
    }

    /// Writes the image into the slot that isn't current, in order of number.
    fn fill<D: Disc>(&self, disc: &mut D, image: &[Block]) -> Result<(), SlotFault>
        requires image { length image.now ≡ 1088 }
        requires size { 2177 < (D.state disc.old).size }
        requires gate { GateNames self.now (D.state disc.old).held }
        ensures ok { OnOk result
            (Changes (Fills self.now image.now) (D.state disc.old).held (D.state disc.new).held) }
        ensures stopped { OnErr result
            (Changes (KeepsCurrent self.now) (D.state disc.old).held (D.state disc.new).held) }
        ensures counts { WritesOnly 1088 (D.state disc.old) (D.state disc.new) result }
        ensures dirties { DirtiesOnly (IsInSlot (other self.now)) (D.state disc.old) (D.state disc.new) result }
        ensures only { OnErr result (result ≡ Err SlotFault.Stopped) }
    {
        let _size = disc.size();
        for (k, block) in image.iter().enumerate() {
            self.prepare(disc, k as u32, block)?;
        }
        Ok(())
    }
}
