//! Power losses: each event of the whole store is interrupted at each call that changes a device, and what is left is started and
//! restored. The data file contains the events.
#![tactic(auto)]

mod histories;
mod lines;
mod operating;
mod rows;
mod system;
mod trees;
mod trying;

use std::fs;
use std::test::Fail;

fn main(rt: HostRuntime) -> Result<(), Fail> {
    let text = fs::read_to_string(&rt, "events.rows")?;
    for part in text.as_str().split("\n\n") {
        trying::run(&rt, part)?;
    }
    Ok(())
}
