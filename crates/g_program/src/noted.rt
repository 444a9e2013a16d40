//! A source that notes the bytes which are taken from it, so that a bad line of a script can be explained.
ghost use Rattle.std.specs.Prelude.{◌≡◌};

use g_base::ReadFailed;
use g_io::Source;
use std::alloc::Global;

/// A source with the bytes that were taken. If memory runs out for them, it notes none.
#[derive(Drop)]
pub(crate) struct Noted<S: Source + Drop> {
    source: S,
    text: Option<Vec<u8>>,
}

impl<S: Source + Drop> Noted<S> {
    pub(crate) fn new(alloc: Global, source: S) -> Noted<S> {
        Noted {
            source,
            text: Some(Vec::new(alloc)),
        }
    }

    /// The bytes that were taken, or `None` if memory ran out for them.
    pub(crate) fn text(&self) -> Option<&[u8]> {
        match &self.text {
            Some(text) => Some(text.as_slice()),
            None => None,
        }
    }

    /// Notes these bytes.
    fn note(&mut self, bytes: &[u8])
        ensures { self.new.source ≡ self.old.source }
    {
        let noted = match &mut self.text {
            Some(text) => text.extend_from_slice(bytes).is_ok(),
            None => true,
        };
        if !noted {
            self.text = None;
        }
    }
}

impl<S: Source + Drop> Source for Noted<S> {
    ghost left = { λ s. S.left s.source };

    ghost faults = { λ s. S.faults s.source };

    fn take(&mut self, into: &mut [u8]) -> Result<usize, ReadFailed> {
        let count = self.source.take(into)?;
        self.note(&into[..count]);
        Ok(count)
    }
}
