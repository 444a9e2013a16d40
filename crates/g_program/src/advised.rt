//! A sink that explains on standard error why a command in small letters is refused. What is printed is that of the sink in it.
use crate::explain::{has_small_command, tell_small};
use g_base::WriteFailed;
use g_io::Sink;

/// A sink, and whether small letters were explained.
#[derive(Drop)]
pub(crate) struct Advised<'a, K: Sink + Drop> {
    rt: &'a HostRuntime,
    sink: K,
    told: bool,
}

impl<'a, K: Sink + Drop> Advised<'a, K> {
    pub(crate) fn new(rt: &'a HostRuntime, sink: K) -> Advised<'a, K> {
        Advised {
            rt,
            sink,
            told: false,
        }
    }
}

impl<K: Sink + Drop> Sink for Advised<'_, K> {
    ghost written = { λ s. K.written s.sink };

    ghost faults = { λ s. K.faults s.sink };

    fn put(&mut self, piece: &[u8]) -> Result<(), WriteFailed> {
        self.sink.put(piece)?;
        if !self.told && has_small_command(piece) {
            tell_small(self.rt);
            self.told = true;
        }
        Ok(())
    }
}
