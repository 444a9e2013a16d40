//! The run: a script is read whole, its lines are done when they are due, the system ticks as long as something can step, and the text is printed.
#![tactic(auto)]

mod boxed_disc;
mod boxed_tapes;
mod demo;
mod input;
mod law;
mod over;
mod remaining_ticks;
mod script;
mod status;
mod top;

pub use boxed_disc::BoxedDisc;
pub use boxed_tapes::BoxedTapes;
pub use law::{jobs_of_a_script_end, text_of_a_script_is_one, typed_lines_are_read};
pub use over::{ScriptEnd, close, in_boxes, taken_down, unboxed};
pub use remaining_ticks::remaining_ticks_fit;
pub use script::next_line;
pub use status::Status;
pub use top::{Finish, george, not_begun, tell_fuses};
