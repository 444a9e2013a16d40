//! The script read whole.
ghost use Rattle.std.specs.Prelude.{◌≡◌, ◌<◌, ◌≤◌, ℕ, List, [], Some, IfOk, IsErrOf, drop, length};
ghost use Rattle.g_base.specs.Counts.{Rose};

use g_io::Source;
use std::alloc::{AllocError, Global};

/// The most bytes that a script may have.
const LIMIT: usize = 16_777_216;

/// How many bytes are taken at a time.
const PIECE: usize = 4_096;

/// Why a script wasn't read whole.
#[derive(Clone, Copy, PartialEq, Eq)]
pub(crate) enum Unread {
    /// The source failed.
    Fault,
    /// There are more than 16,777,216 bytes; one more was taken.
    TooLong,
    NoMemory,
}

impl From<AllocError> for Unread {
    ghost use Rattle.g_run.specs.declared.input.Unread.TheVariants.{NoMemory};

    ghost from_gives = { λ _ e. e ≡ NoMemory };

    fn from(_e: AllocError) -> Unread {
        Unread::NoMemory
    }
}

/// Reads all that the source has left.
pub(crate) fn read_script<S: Source>(alloc: Global, script: &mut S) -> Result<Vec<u8>, Unread>
    ensures all { IfOk result (λ text. (left : List ℕ) → S.left script.old ≡ Some left → (text.items ≡ left) × (S.left script.new ≡ Some [])) }
    ensures short { IfOk result (λ text. length text.items ≤ 16777216) }
    ensures long { IsErrOf result Unread.TooLong → (left : List ℕ) → S.left script.old ≡ Some left → 16777216 < length left }
    ensures taken { (left : List ℕ) → S.left script.old ≡ Some left → (n : ℕ) × (n ≤ 16777217) × (S.left script.new ≡ Some (drop n left)) }
    ensures fault { IsErrOf result Unread.Fault → Rose (S.faults script.old) (S.faults script.new) }
    ensures no_fault { (IsErrOf result Unread.Fault → ⊥) → S.faults script.new ≡ S.faults script.old }
{
    let mut text = Vec::new(alloc);
    let mut buffer = [0u8; PIECE];
    'pieces: while text.len() <= LIMIT {
        let want = PIECE.min(LIMIT + 1 - text.len());
        let piece = &mut buffer[..want];
        match script.take(piece) {
            Err(_) => return Err(Unread::Fault),
            Ok(count) => {
                if count == 0 {
                    return Ok(text);
                }
                text.extend_from_slice(&piece[..count])?;
            }
        }
    }
    Err(Unread::TooLong)
}
