//! Tests of paired reels on two racks in memory: each rule of a read, a write, a repair and a rebuild once.
#![tactic(auto)]

#[cfg(test)]
mod pairs;
pub mod racks;
