//! The script of a demonstration is valid for the whole program (docs/DEFINITIONS.md, "g_demo").
#![tactic(auto)]

mod law;

pub use law::the_script_is_good;
