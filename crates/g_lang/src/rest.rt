//! The text of a verb's parameters.
ghost use Rattle.std.specs.Prelude.{◌≡◌, IfOk, IfSome};

use arrayvec::ArrayVec;
use g_base::NoMemory;
use g_name::Text;
use std::alloc::Global;
use std::marker::Model;

/// The text of a verb's parameters, from the first one on, unchanged. Up to 24 bytes need no allocation. Contracts see its bytes.
#[derive(Drop)]
pub struct Rest {
    kept: Kept,
}

/// The bytes, if they are few, or a text of their own.
#[derive(Drop)]
enum Kept {
    Few(ArrayVec<u8, 24>),
    Many(Text),
}

impl Model for Rest {
    ghost use Rattle.std.specs.Prelude.{ℕ, List};
    ghost use Rattle.g_lang.specs.RestBytes.{kept_bytes};

    ghost Value = { List ℕ };

    ghost view = { λ r. kept_bytes r.kept };
}

impl Rest {
    /// The text of these bytes.
    pub fn new(alloc: Global, bytes: &[u8]) -> Result<Rest, NoMemory>
        ensures { IfOk result (λ rest. rest ≡ bytes.now) }
    {
        match few_of(bytes) {
            Some(few) => Ok(Rest {
                kept: Kept::Few(few),
            }),
            None => match Text::from_slice(alloc, bytes) {
                Ok(many) => Ok(Rest {
                    kept: Kept::Many(many),
                }),
                Err(NoMemory) => Err(NoMemory),
            },
        }
    }

    /// The bytes.
    pub fn as_slice(&self) -> &[u8]
        ensures { result.now ≡ self.now }
    {
        match &self.kept {
            Kept::Few(few) => few.as_slice(),
            Kept::Many(many) => many.as_slice(),
        }
    }
}

/// The bytes in a list without allocation, if they are few.
fn few_of(bytes: &[u8]) -> Option<ArrayVec<u8, 24>>
    ensures { IfSome result (λ few. few.items ≡ bytes.now) }
{
    match ArrayVec::try_from(bytes) {
        Ok(few) => Some(few),
        Err(_) => None,
    }
}
