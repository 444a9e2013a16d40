//! Scripts: their bad lines, derived manually from the rules of a script.
mod ample;
mod documents;
mod heads;

use g_script::parse_script;
use std::alloc::Global;
use std::test::Fail;

/// How many items a script has before its bad line, and which line that is.
fn read(alloc: Global, script: &[u8]) -> Result<(usize, Option<u64>), Fail> {
    let script = parse_script(alloc, script)?;
    Ok((script.lines.as_slice().len(), script.bad))
}
