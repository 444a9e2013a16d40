//! The trait of a console.
ghost use Rattle.std.specs.Prelude.{◌≡◌, ◌≤◌, Option, IfOk, IfSome, OnErr, length, option_map};
ghost use Rattle.g_io.specs.Streams.{CountsFault};
ghost use Rattle.g_console.specs.Transcript.{Continues, IsTaken, Transcript, written_of};
ghost use Rattle.g_console.specs.Transcript.{Failed};

use g_base::ReadFailed;
use g_io::Sink;

/// A sink that is also asked for lines. Its transcript has every request for a line and all printed text, in one order. A
/// console may expose its transcript, and may stop exposing it at a request. As a sink, it exposes the transcript as one list, the requests first.
/// Its count of faults counts failed prints and failed requests.
pub trait Console: Sink {
    ghost transcript: { Self → Option Transcript };

    /// Waits for the next line, moves it into `into`, without its byte 10, and returns how many bytes these are. If the line is
    /// longer than `into`, the rest of it is dropped. `None` means that no more lines come. The last line may lack its byte 10.
    /// A person at a terminal sees the prompt.
    fn take_line(&mut self, prompt: &[u8], into: &mut [u8]) -> Result<Option<usize>, ReadFailed>
        ensures taken { IfOk result (λ n. IsTaken (transcript self.old) n into.new (transcript self.new)) }
        ensures within { IfOk result (λ n. IfSome n (λ count. count ≤ length into.old)) }
        ensures failed { OnErr result (Continues (transcript self.old) Failed (transcript self.new)) }
        ensures cause { CountsFault result (Self.faults self.old) (Self.faults self.new) };

    ghost exposed: { (c : Self) → Self.written c ≡ option_map written_of (transcript c) };
}
