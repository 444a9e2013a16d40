//! Commands that wait for a condition.
use g_lang::Cond;
use g_name::Text;

/// A WHENEVER stored in a level: the command is executed whenever the condition holds after a command.
#[derive(Drop)]
pub struct Entry {
    pub cond: Cond,
    pub command: Text,
}
