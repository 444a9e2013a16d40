//! Files whose bytes are on tape are taken off the disc: one file by command, or as many as make room.
#![tactic(auto)]

mod candidates;
mod migration;
mod unjamming;

pub use g_online::Unjam;
pub use migration::migrate;
pub use unjamming::plan_unjam;
