//! A sink that stores only the summary of its text.
ghost use Rattle.std.specs.Prelude.{◌≡◌, [], OnOk, OnErr, Some};
ghost use Rattle.g_demo.specs.Summary as spec;
ghost use Rattle.g_demo.specs.Sink.{SummarySinkView};
ghost use Rattle.g_io.specs.Streams.{with_more, HasPutPart, CountsFault};

use crate::summary::Summary;
use crate::told::Told;
use g_base::{WriteFailed, raised};
use g_io::Sink;
use std::marker::Model;

/// A sink that allocates nothing: each piece is added to the summary of the text and dropped. Contracts see the whole text, and the number of failed
/// calls.
#[derive(Drop)]
pub struct SummarySink {
    summary: Summary,
    faults: u64,
    told: Told,
}

impl Model for SummarySink {
    ghost Value = { SummarySinkView };

    ghost view = { λ s. record { text = s.told.text; faults = s.faults } };

    // The stored summary is that of the text that proofs see.
    ghost invariant = { λ s. s.summary ≡ spec.summary_of s.told.text };
}

impl SummarySink {
    /// A sink that nothing was written to.
    pub fn new() -> SummarySink
        ensures { result ≡ record { text = []; faults = 0 } }
    {
        SummarySink {
            summary: Summary::new(),
            faults: 0,
            told: Told::new(),
        }
    }

    /// The summary of what was written.
    pub fn summary(&self) -> Summary
        ensures { result ≡ spec.summary_of self.now.text }
    {
        self.summary
    }
}

impl Sink for SummarySink {
    ghost written = { λ s. Some s.text };

    ghost faults = { λ s. s.faults };

    /// As the trait says; in addition, a failing call appends nothing. It fails if the text would reach 2^64 bytes.
    fn put(&mut self, piece: &[u8]) -> Result<(), WriteFailed>
        ensures put { OnOk result (Some self.new.text ≡ with_more (Some self.old.text) piece.now) }
        ensures part { OnErr result (HasPutPart (Some self.old.text) piece.now (Some self.new.text)) }
        ensures nothing { OnErr result (self.new.text ≡ self.old.text) }
        ensures cause { CountsFault result self.old.faults self.new.faults }
    {
        if u64::MAX - self.summary.bytes < piece.len() as u64 {
            self.faults = raised(self.faults);
            return Err(WriteFailed);
        }
        self.summary.add(piece);
        self.told = self.told.then(piece);
        Ok(())
    }
}
