//! Full names of files.
ghost use Rattle.std.specs.Prelude.{◌≡◌, IfOk};
ghost use Rattle.g_name.specs.Names.{name_text, full_name};
ghost use Rattle.g_name.specs.Order.{full_cmp};

use crate::{Lang, Local, Text, User};
use g_base::NoMemory;
use std::alloc::Global;
use std::cmp::Ordering;

/// The full name of a file: `:USER.NAME(generation/LANG)`. Full names are ordered as by `compare`: by user, local name,
/// generation and language.
#[derive(Debug, Drop, PartialEq, Eq, PartialOrd, Ord, Hash)]
pub struct Full {
    pub user: User,
    pub local: Local,
    /// 1 to 4,095 in every full name of a filestore.
    pub generation: u16,
    pub lang: Lang,
}

impl Full {
    /// A copy of the full name. It allocates nothing.
    pub fn copy(&self) -> Full
        ensures { result ≡ self.now }
    {
        Full {
            user: self.user.copy(),
            local: self.local.copy(),
            generation: self.generation,
            lang: self.lang.copy(),
        }
    }

    /// The order of two full names: by user, then local name, then generation, then language.
    pub fn compare(&self, other: &Full) -> Ordering
        ensures { result ≡ full_cmp self.now other.now }
    {
        self.cmp(other)
    }

    /// The text of the full name, without the trailing spaces of the language: `:MASTER.F(1/)`. Parsed as a path, it gives the
    /// same name.
    pub fn print(&self, alloc: Global) -> Result<Text, NoMemory>
        ensures { IfOk result (λ t. t ≡ name_text (full_name self.now)) }
    {
        let generation = format!(in alloc; "{}", self.generation)?;
        let mut text = Text::new(alloc);
        text.extend(b":")?;
        text.extend(self.user.as_slice())?;
        text.extend(b".")?;
        text.extend(self.local.as_slice())?;
        text.extend(b"(")?;
        text.extend(generation.as_bytes())?;
        text.extend(b"/")?;
        text.extend(self.lang.as_slice())?;
        text.extend(b")")?;
        Ok(text)
    }
}
