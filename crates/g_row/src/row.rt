//! A row, parsed from its line in `rows.txt`: the name of its files, and what differs from an empty disc of 4,096 blocks, one empty reel of 8,192 and
//! the word `run`.

use anyhow::anyhow;
use std::alloc::{AllocError, Global};

/// The results of a run.
#[derive(Drop)]
pub struct Seen {
    pub status: u8,
    pub text: String,
    /// The length of each reel.
    pub lengths: Vec<u32>,
    /// A line for each file of the disc, if the row has copies.
    pub files: String,
}

/// The requirements of a row.
#[derive(Drop)]
pub struct Row<'a> {
    pub name: &'a str,
    /// Whether the expected file has the whole text, or only lines that occur in it in this order.
    whole: bool,
    /// Whether each line of its files begins with the number of its repetitions.
    packed: bool,
    pub words: Vec<&'a str>,
    pub(crate) blocks: u32,
    /// The capacities of the reels, 1 and so on.
    pub(crate) reels: Vec<u32>,
    /// What a failing write of a tape leaves: `old`, `cut`, `half` or `whole`.
    pub(crate) leaves: &'a str,
    /// What a failing write of the disc leaves, `old` or `whole`, and the byte with which it fills a block; 0: none.
    pub(crate) disc: &'a str,
    pub(crate) torn: u8,
    /// Which take of the script and which put of the text fails; 0: none.
    pub take: u64,
    pub put: u64,
    /// Whether each put should fail once.
    pub each_put: bool,
    status: u8,
    /// The lengths of the reels at the end, if the row has them.
    lengths: Vec<u32>,
    /// The files whose copies the row has.
    pub(crate) copies: Vec<Taped<'a>>,
    absent: Vec<&'a str>,
}

/// A file, and the place of its copy on tape at the end.
#[derive(Drop)]
pub struct Taped<'a> {
    file: &'a str,
    serial: &'a str,
    first: &'a str,
}

impl<'a> Taped<'a> {
    /// Parses the full name, the serial and the first block, separated by commas.
    fn parse(value: &'a str) -> anyhow::Result<Taped<'a>> {
        let Some((file, place)) = value.split_once(',') else {
            return Err(anyhow!("no copy: {value}"));
        };
        let Some((serial, first)) = place.split_once(',') else {
            return Err(anyhow!("no place of a copy: {value}"));
        };
        Ok(Taped {
            file,
            serial,
            first,
        })
    }

    /// Whether a line of the disc's files is this file's, with this place.
    fn is_told(&self, line: &str) -> bool {
        let Some(told) = line.strip_prefix(self.file) else {
            return false;
        };
        let Some(told) = told.strip_suffix(self.first) else {
            return false;
        };
        let Some(told) = told.strip_suffix(" AT ") else {
            return false;
        };
        let Some(told) = told.strip_suffix(self.serial) else {
            return false;
        };
        told.starts_with(" ") && told.ends_with(" TAPE ")
    }
}

impl<'a> Row<'a> {
    /// Parses a line: the row's name, `text` or `expect`, and settings `key=value`.
    pub fn parse(alloc: Global, line: &'a str) -> anyhow::Result<Row<'a>> {
        let mut parts = line.split_whitespace();
        let (Some(name), Some(kind)) = (parts.next(), parts.next()) else {
            return Err(anyhow!("no row: {line}"));
        };
        let mut row = Row::plain(alloc, name, kind == "text")?;
        for part in parts {
            let Some((key, value)) = part.split_once('=') else {
                return Err(anyhow!("no setting: {part}"));
            };
            row.set(key, value)?;
        }
        if row.words.is_empty() {
            row.words.push("run")?;
        }
        if row.reels.is_empty() {
            row.reels.push(8_192)?;
        }
        Ok(row)
    }

    fn plain(alloc: Global, name: &'a str, whole: bool) -> Result<Row<'a>, AllocError> {
        Ok(Row {
            name,
            whole,
            packed: false,
            words: Vec::new(alloc),
            blocks: 4_096,
            reels: Vec::new(alloc),
            leaves: "old",
            disc: "old",
            torn: 0,
            take: 0,
            put: 0,
            each_put: false,
            status: 0,
            lengths: Vec::new(alloc),
            copies: Vec::new(alloc),
            absent: Vec::new(alloc),
        })
    }

    fn set(&mut self, key: &str, value: &'a str) -> anyhow::Result<()> {
        if key == "word" {
            self.words.push(value)?;
        } else if key == "absent" {
            self.absent.push(value)?;
        } else if key == "reel" {
            self.reels.push(value.parse()?)?;
        } else if key == "length" {
            self.lengths.push(value.parse()?)?;
        } else if key == "copy" {
            self.copies.push(Taped::parse(value)?)?;
        } else if key == "leaves" {
            self.leaves = value;
        } else if key == "disc" {
            self.disc = value;
        } else if key == "torn" {
            self.torn = value.parse()?;
        } else if key == "status" {
            self.status = value.parse()?;
        } else {
            self.set_number(key, value.parse()?)?;
        }
        Ok(())
    }

    fn set_number(&mut self, key: &str, value: u32) -> anyhow::Result<()> {
        if key == "blocks" {
            self.blocks = value;
        } else if key == "packed" {
            self.packed = value == 1;
        } else if key == "puts" {
            self.each_put = value == 1;
        } else if key == "take" {
            self.take = u64::from(value);
        } else if key == "put" {
            self.put = u64::from(value);
        } else {
            return Err(anyhow!("no setting: {key}"));
        }
        Ok(())
    }

    /// The text of one of its files, with repetitions expanded.
    pub fn unpack(&self, alloc: Global, text: String) -> anyhow::Result<String> {
        if self.packed {
            unpacked(alloc, text.as_str())
        } else {
            Ok(text)
        }
    }

    /// The ending of the name of the file with the expected text.
    pub fn kind(&self) -> &'static str {
        if self.whole { "text" } else { "expect" }
    }

    /// The reason why the results aren't those that the row expects.
    pub fn differs(&self, seen: &Seen, wanted: &str) -> Option<&'static str> {
        if seen.status != self.status {
            return Some("the status");
        }
        if self.whole && seen.text.as_str() != wanted {
            return Some("the text");
        }
        if !self.whole && !stand_in_order(seen.text.as_str(), wanted) {
            return Some("a line that lacks");
        }
        if self
            .absent
            .iter()
            .any(|text| seen.text.as_str().contains(*text))
        {
            return Some("a text that shouldn't be there");
        }
        if !self.lengths.is_empty() && seen.lengths.as_slice() != self.lengths.as_slice() {
            return Some("the lengths of the reels");
        }
        if !self.copies.iter().all(|copy| seen
            .files
            .as_str()
            .lines()
            .any(|line| copy.is_told(line)))
        {
            return Some("the place of a copy");
        }
        None
    }
}

/// Whether each of the expected lines occurs in the text, in this order.
fn stand_in_order(text: &str, wanted: &str) -> bool {
    let mut lines = text.lines();
    wanted
        .lines()
        .all(|line| lines.any(|other| other.contains(line)))
}

/// The lines of a text each of which begins with the number of its repetitions.
fn unpacked(alloc: Global, text: &str) -> anyhow::Result<String> {
    let mut whole = String::new(alloc);
    for line in text.lines() {
        let Some((count, line)) = line.split_once(' ') else {
            return Err(anyhow!("no count: {line}"));
        };
        push_times(&mut whole, line, count.parse()?)?;
    }
    Ok(whole)
}

/// Appends a line this many times.
fn push_times(text: &mut String, line: &str, count: u32) -> Result<(), AllocError> {
    for _again in 0..count {
        text.push_str(line)?;
        text.push('\n')?;
    }
    Ok(())
}
