//! The user of a turn, and the turn's resources.
use g_name::User;
use std::alloc::Global;

/// The user of a turn, the room of its monitoring file in bytes, and its allocator.
#[derive(Clone, Copy)]
pub struct Asker<'a> {
    pub alloc: Global,
    pub who: &'a User,
    pub room: usize,
}
