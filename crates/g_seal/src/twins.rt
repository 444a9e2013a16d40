//! What a second rack has of a seal.
ghost use Rattle.std.specs.Prelude.{◌≡◌, ◌≢◌, ◌⊎◌, ◌++◌, ◌∷◌, List, [], All, Err, IfErr, IfOk, OnErr, OnOk, map, true};
ghost use Rattle.g_incr.specs.Layout.{Dump};
ghost use Rattle.g_lines.specs.Lines.{text_of};
ghost use Rattle.g_store_meaning.specs.Meaning.{told_reels};
ghost use Rattle.g_store_meaning.specs.Reading.{ReelsTold};
ghost use Rattle.g_look.specs.Looks.{ReadsRackByCause};
ghost use Rattle.g_seal.specs.Rotten.{AreTwins, HasNoTwins, is_among, is_other, is_sealed, stamps_in, state_found, twin_here, twin_lines, twin_state, unless_left};
ghost use Rattle.g_seal.specs.Sealing.{sealed_dump};

use crate::reel_state::reel_state;
use crate::rotten_dumps::{push_rotten_dumps, rotten_dumps};
use crate::rotten_files::{is_left_out, is_same_place};
use crate::versions::CopyState;
use crate::{RottenDump, Seal, SealedFile};
use g_base::NoMemory;
use g_entry::TapeCopy;
use g_look::LookFault;
use g_name::Text;
use g_tape::Tapes;
use std::alloc::Global;

/// The sealed dumps that are rotten in a second rack, the stamps of the files that have the sealed sum there, and of those that have another.
#[derive(Drop)]
pub struct Twins {
    pub rotten: Vec<RottenDump>,
    pub sealed: Vec<u64>,
    pub other: Vec<u64>,
}

impl Twins {
    /// No second rack; allocates nothing.
    pub fn none(alloc: Global) -> Twins
        ensures { HasNoTwins result }
    {
        Twins {
            rotten: Vec::new(alloc),
            sealed: Vec::new(alloc),
            other: Vec::new(alloc),
        }
    }

    /// The lines of the dumps that are rotten there, each with its byte 10.
    pub fn text(&self, alloc: Global) -> Result<Text, NoMemory>
        ensures text { IfOk result (λ text. text ≡ text_of (twin_lines self.now)) }

        // Without such a dump no memory is needed.
        ensures memory { OnErr result (self.now.rotten.items ≢ []) }
    {
        let mut text = Text::new(alloc);
        push_rotten_dumps(&mut text, self.rotten.as_slice(), b" IN THE SECOND RACK")?;
        Ok(text)
    }

    /// The state of a version's copy there, by the sealed file, the state of its copy on disc and its place on tape.
    pub(crate) fn state_of(
        &self,
        sealed: &SealedFile,
        disc: CopyState,
        place: &Option<TapeCopy>,
    ) -> CopyState
        ensures { result ≡ twin_state self.now sealed.now disc place.now }
    {
        match place {
            Some(copy) => {
                if is_same_place(copy, &sealed.tape) {
                    let left = is_left_out(self.rotten.as_slice(), sealed, disc, copy);
                    unless_left(left, self.state_found(sealed.stamp))
                } else {
                    CopyState::Absent
                }
            }
            None => CopyState::Absent,
        }
    }

    /// The state that was found of the file with this stamp.
    fn state_found(&self, stamp: u64) -> CopyState
        ensures { result ≡ state_found self.now stamp }
    {
        if is_among(self.sealed.as_slice(), stamp) {
            CopyState::Sealed
        } else if is_among(self.other.as_slice(), stamp) {
            CopyState::Other
        } else {
            CopyState::Absent
        }
    }
}

/// The state, unless it is that of other bytes in a copy that is left out.
fn unless_left(left: bool, state: CopyState) -> CopyState
    ensures { result ≡ unless_left left state }
{
    if left && state.is_other() {
        CopyState::Absent
    } else {
        state
    }
}

/// Whether the stamp is one of these.
fn is_among(stamps: &[u64], stamp: u64) -> bool
    ensures { result ≡ is_among stamps.now stamp }
{
    for one in stamps {
        if *one == stamp {
            return true;
        }
    }
    false
}

/// Looks in a second rack for what a seal has: the blocks of each dump, and the bytes of each file at the place on tape where it was sealed. All reels have
/// to be mounted. The rack is only read. `TapeUnread`, `NoMemory`.
pub fn twins_of<T: Tapes>(alloc: Global, second: &mut T, seal: &Seal) -> Result<Twins, LookFault>
    requires mounted { All (λ r. r.mounted ≡ true) (T.rack second.old).reels }
    ensures twins { ReelsTold (told_reels (T.rack second.old)) → IfOk result (λ twins.
        AreTwins (told_reels (T.rack second.old)) seal.now.dumps.items seal.now.files.items twins) }

    // If the dumps are sealed as they are there, none of them is rotten.
    ensures unchanged { ReelsTold (told_reels (T.rack second.old)) → (dumps : List Dump)
        → seal.now.dumps.items ≡ map (sealed_dump (told_reels (T.rack second.old))) dumps → IfOk result (λ twins. twins.rotten.items ≡ []) }
    ensures second { ReadsRackByCause (result ≡ Err LookFault.TapeUnread) (T.rack second.old) (T.rack second.new) }
    ensures faults { IfErr result (λ e. (e ≡ LookFault.TapeUnread) ⊎ (e ≡ LookFault.NoMemory)) }
{
    let rotten = match rotten_dumps(alloc, second, seal.dumps.as_slice()) {
        Ok(rotten) => rotten,
        Err(fault) => return Err(fault),
    };
    let mut twins = Twins {
        rotten,
        sealed: Vec::new(alloc),
        other: Vec::new(alloc),
    };
    match find_files(&mut twins, second, seal.files.as_slice()) {
        Ok(()) => Ok(twins),
        Err(fault) => Err(fault),
    }
}

/// Adds the stamp of each file that has a copy there.
fn find_files<T: Tapes>(
    twins: &mut Twins,
    second: &mut T,
    files: &[SealedFile],
) -> Result<(), LookFault>
    requires mounted { All (λ r. r.mounted ≡ true) (told_reels (T.rack second.old)) }
    ensures rotten { twins.new.rotten ≡ twins.old.rotten }
    ensures sealed { ReelsTold (told_reels (T.rack second.old)) → OnOk result (twins.new.sealed.items
        ≡ twins.old.sealed.items ++ stamps_in is_sealed (told_reels (T.rack second.old)) files.now) }
    ensures other { ReelsTold (told_reels (T.rack second.old)) → OnOk result (twins.new.other.items
        ≡ twins.old.other.items ++ stamps_in is_other (told_reels (T.rack second.old)) files.now) }
    ensures second { ReadsRackByCause (result ≡ Err LookFault.TapeUnread) (T.rack second.old) (T.rack second.new) }
    ensures faults { IfErr result (λ e. (e ≡ LookFault.TapeUnread) ⊎ (e ≡ LookFault.NoMemory)) }
{
    for file in files {
        match find_file(twins, second, file) {
            Ok(()) => {}
            Err(fault) => return Err(fault),
        }
    }
    Ok(())
}

/// Adds the stamp of the file, if it has a copy there.
fn find_file<T: Tapes>(
    twins: &mut Twins,
    second: &mut T,
    file: &SealedFile,
) -> Result<(), LookFault>
    requires mounted { All (λ r. r.mounted ≡ true) (told_reels (T.rack second.old)) }
    ensures rotten { twins.new.rotten ≡ twins.old.rotten }
    ensures sealed { ReelsTold (told_reels (T.rack second.old)) → OnOk result (twins.new.sealed.items
        ≡ twins.old.sealed.items ++ stamps_in is_sealed (told_reels (T.rack second.old)) (file.now ∷ [])) }
    ensures other { ReelsTold (told_reels (T.rack second.old)) → OnOk result (twins.new.other.items
        ≡ twins.old.other.items ++ stamps_in is_other (told_reels (T.rack second.old)) (file.now ∷ [])) }
    ensures second { ReadsRackByCause (result ≡ Err LookFault.TapeUnread) (T.rack second.old) (T.rack second.new) }
    ensures faults { IfErr result (λ e. (e ≡ LookFault.TapeUnread) ⊎ (e ≡ LookFault.NoMemory)) }
{
    let added = match state_here(second, file) {
        Ok(CopyState::Sealed) => twins.sealed.push(file.stamp),
        Ok(CopyState::Other) => twins.other.push(file.stamp),
        Ok(CopyState::Absent) => Ok(()),
        Err(fault) => return Err(fault),
    };
    match added {
        Ok(()) => Ok(()),
        Err(_) => Err(LookFault::NoMemory),
    }
}

/// The state of the file at the place on tape where it was sealed.
fn state_here<T: Tapes>(second: &mut T, file: &SealedFile) -> Result<CopyState, LookFault>
    requires mounted { All (λ r. r.mounted ≡ true) (told_reels (T.rack second.old)) }
    ensures state { ReelsTold (told_reels (T.rack second.old)) → IfOk result (λ s. s ≡ twin_here (told_reels (T.rack second.old)) file.now) }
    ensures second { ReadsRackByCause (result ≡ Err LookFault.TapeUnread) (T.rack second.old) (T.rack second.new) }
    ensures faults { IfErr result (λ e. (e ≡ LookFault.TapeUnread) ⊎ (e ≡ LookFault.NoMemory)) }
{
    match &file.tape {
        Some(copy) => reel_state(second, copy, file.len, &file.sum),
        None => Ok(CopyState::Absent),
    }
}
