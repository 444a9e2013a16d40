//! A session as its file has it. A line begins with `< ` if it is typed, with `~ ` if it is typed last and without its byte 10, and with `> ` if it is
//! answered; `<` is an empty line, and `.` the end of the input.

use anyhow::anyhow;
use std::alloc::Global;

/// What is typed, and all that is answered.
#[derive(Drop)]
pub struct Talk {
    typed: String,
    answered: String,
}

impl Talk {
    /// Parses a file.
    pub fn parse(alloc: Global, text: &str) -> anyhow::Result<Talk> {
        let mut talk = Talk {
            typed: String::new(alloc),
            answered: String::new(alloc),
        };
        for line in text.lines() {
            talk.add(line)?;
        }
        Ok(talk)
    }

    fn add(&mut self, line: &str) -> anyhow::Result<()> {
        if line == "<" {
            self.typed.push('\n')?;
        } else if let Some(typed) = line.strip_prefix("< ") {
            self.typed.push_str(typed)?;
            self.typed.push('\n')?;
        } else if let Some(typed) = line.strip_prefix("~ ") {
            self.typed.push_str(typed)?;
        } else if let Some(answer) = line.strip_prefix("> ") {
            self.answered.push_str(answer)?;
            self.answered.push('\n')?;
        } else if line != "." {
            return Err(anyhow!("no line of a session: {line}"));
        }
        Ok(())
    }

    pub fn typed(&self) -> &str {
        self.typed.as_str()
    }

    pub fn answered(&self) -> &str {
        self.answered.as_str()
    }
}
