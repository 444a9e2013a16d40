//! What a turn that waits resumes with.
use g_name::Text;

/// What a turn that waits for a reel resumes with once the reel is mounted.
#[derive(Drop)]
pub enum Suspended {
    /// This line, as it was taken, from its echo on.
    Line(Text),
    /// The command of a WHENEVER, with the results of the line before it.
    Command {
        /// What the line before it added to the monitoring file.
        text: Text,
        /// The orders that were run.
        orders: u32,
        /// The blocks of 512 bytes that were transferred.
        blocks: u32,
        command: Text,
    },
}
