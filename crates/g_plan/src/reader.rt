//! The first pass over a source: what each line says, and its place.
ghost use Rattle.std.specs.Prelude.{◌≡◌, ◌≤◌, ◌++◌, ◌∷◌, ◌&&◌, ℕ, List, [], IfOk};
ghost use Rattle.g_lines.specs.Lines.{lines_of};
ghost use Rattle.g_plan.specs.Assembly as assembly;
ghost use Rattle.g_plan.specs.Reading.{IsReadBehind, form_at, has_place};

use crate::form::Form;
use crate::read::read_line;
use crate::source::{Line, Source};
use crate::words::{before, is_blank, label};
use g_base::NoMemory;
use g_lines::Lines;
use g_name::Local;
use std::alloc::Global;

/// The first word's place.
const FIRST: u16 = 20;

/// The place that represents all places past the longest program.
const PAST: u32 = 0x8000;

/// A source, some lines of which are read.
#[derive(Drop)]
struct Reader {
    source: Source,
    /// The place after these lines.
    place: u16,
    /// Whether all lines were blank.
    blank: bool,
}

/// The lines of a source.
pub(crate) fn read_source(alloc: Global, text: &[u8]) -> Result<Source, NoMemory>
    ensures { IfOk result (λ source. source ≡ assembly.source (lines_of text.now)) }
{
    let mut lines = Lines::new(text);
    let mut reader = Reader::new(alloc);
    while let Some(line) = lines.next() {
        reader = reader.with(line)?;
    }
    Ok(reader.source)
}

impl Reader {
    fn new(alloc: Global) -> Reader
        ensures { IsReadBehind [] result }
    {
        Reader {
            source: Source::new(alloc),
            place: FIRST,
            blank: true,
        }
    }

    /// The reader with one more line.
    fn with(self, text: &[u8]) -> Result<Reader, NoMemory>
        ensures { IfOk result (λ next. (earlier : List (List ℕ)) → IsReadBehind earlier self → IsReadBehind (earlier ++ text.now ∷ []) next) }
    {
        let front = before(b' ', text);
        let label = label(front);
        let form = self.form_of(text, &label);
        let place = moved(self.place, &form);
        let blank = still_blank(self.blank, text);
        let line = Line {
            label,
            form,
            place: self.place,
        };
        let source = self.source.with(line)?;
        Ok(Reader {
            source,
            place,
            blank,
        })
    }

    /// What a line with this label says after the others.
    fn form_of(&self, text: &[u8], label: &Option<Local>) -> Option<Form>
        ensures { result ≡ form_at self.now.source self.now.blank text.now label.now }
    {
        if is_blank(text) {
            return Some(Form::Nothing);
        }
        if self.has(label) {
            return None;
        }
        in_place(self.blank, read_line(text)?)
    }

    /// Whether a line had the label.
    fn has(&self, label: &Option<Local>) -> bool
        ensures { result ≡ has_place self.now.source label.now }
    {
        match label {
            Some(label) => self.source.place_of(label).is_some(),
            None => false,
        }
    }
}

/// Whether the lines with one more are all blank, if those before were.
fn still_blank(blank: bool, text: &[u8]) -> bool
    ensures { result ≡ (blank && assembly.is_blank text.now) }
{
    blank && is_blank(text)
}

/// A form in its place: only the first line that isn't blank is `PROGRAM`, and it must be.
fn in_place(blank: bool, form: Form) -> Option<Form>
    ensures { result ≡ assembly.in_place blank form }
{
    let is_size = matches!(&form, Form::Program(_));
    if blank == is_size { Some(form) } else { None }
}

/// The place after a line of this form.
fn moved(place: u16, form: &Option<Form>) -> u16
    ensures { result ≡ assembly.moved place form.now }
{
    match form {
        None => place,
        Some(Form::At(place)) => *place,
        Some(form) => (u32::from(place) + count(form)).min(PAST) as u16,
    }
}

/// The number of words of a form.
fn count(form: &Form) -> u32
    ensures count { result ≡ assembly.count form.now }
    ensures few { result ≤ 10 }
{
    match form {
        Form::Word(_) | Form::Order(..) => 1,
        Form::Chars(text) => (text.as_slice().len() as u32).div_ceil(4),
        _ => 0,
    }
}
