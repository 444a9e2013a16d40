//! A worked row on two racks in memory used as one: a dump, a wait and a fetch, while reads or writes of one rack fail, or reads of both. A line is
//! printed for each way in which they fail.
#![tactic(auto)]

mod running;

use g_duplex::{Duplex, Twin};
use g_duplex_tests::racks::{armed, rack, rebuild};
use g_tape::{MemoryTapes, Tapes};
use running::{over_pair, text_of};
use std::fs;

/// More reads than the run makes of a rack.
const MOST_READS: u64 = 1_000;

fn main(rt: HostRuntime) -> anyhow::Result<()> {
    let script = fs::read_to_string(&rt, "row.script")?;
    let text = fs::read_to_string(&rt, "row.text")?;
    first_fails(&rt, script.as_str(), text.as_str())?;
    second_fails(&rt, script.as_str(), text.as_str())?;
    let unread = fs::read_to_string(&rt, "unread.text")?;
    both_fail(&rt, script.as_str(), unread.as_str())
}

/// Each read of the first rack fails.
fn first_fails(rt: &HostRuntime, script: &str, text: &str) -> anyhow::Result<()> {
    let mut all = Vec::new(rt.alloc());
    for read in 1..MOST_READS {
        all.push(read)?;
    }
    let pair = over_pair(rack(rt.alloc(), &all)?, rack(rt.alloc(), &[])?);
    let (seen, pair) = text_of(rt.alloc(), script, pair)?;
    let same = seen.as_str() == text && pair.lost().is_empty();
    println!(rt; "each read of the first rack fails: {}", as_wanted(same))?;
    Ok(())
}

/// The third write of the second rack fails: its reel is lost, and rebuilt after the run.
fn second_fails(rt: &HostRuntime, script: &str, text: &str) -> anyhow::Result<()> {
    let pair = over_pair(rack(rt.alloc(), &[])?, armed(rt.alloc(), 3)?);
    let (seen, mut pair) = text_of(rt.alloc(), script, pair)?;
    let same = seen.as_str() == text && pair.lost() == &[(1, Twin::Second)][..];
    println!(rt;
        "the third write of the second rack fails: {}",
        as_wanted(same)
    )?;
    let again = is_made_again(&mut pair);
    println!(rt; "its reel is made again: {}", as_wanted(again))?;
    Ok(())
}

/// Whether the lost reel is rebuilt, and both are equal then.
fn is_made_again(pair: &mut Duplex<MemoryTapes>) -> bool {
    pair.mounted(1)
        && rebuild(pair) == Some(Ok(()))
        && pair.lost().is_empty()
        && pair.agree(1) == Ok(true)
}

/// Both racks fail at the read with which LISTFILE fetches the file. The test searches for the failing read of the
/// first rack; it is the first read of the second rack.
fn both_fail(rt: &HostRuntime, script: &str, text: &str) -> anyhow::Result<()> {
    let mut same = false;
    for read in 1..MOST_READS {
        let pair = over_pair(rack(rt.alloc(), &[read])?, rack(rt.alloc(), &[1])?);
        let (seen, _pair) = text_of(rt.alloc(), script, pair)?;
        if seen.as_str().contains("ERROR 15 TAPE READ") {
            same = seen.as_str() == text;
            break;
        }
    }
    println!(rt;
        "both racks fail at the read of LISTFILE: {}",
        as_wanted(same)
    )?;
    Ok(())
}

/// The words for a result.
fn as_wanted(is: bool) -> &'static str {
    if is { "as it should be" } else { "differs" }
}
