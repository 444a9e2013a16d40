//! The lines of a source, and the places of its labels.
ghost use Rattle.std.specs.Prelude.{◌≡◌, ◌++◌, ◌∷◌, ℕ, List, [], IfOk, OnOk};
ghost use Rattle.g_plan.specs.Assembly.{resolved, size_in, size_of};
ghost use Rattle.g_plan.specs.LineIndex.{noted, place_in};
ghost use Rattle.g_plan.specs.declared.form.Value.TheVariants.{Named};

use crate::form::Form;
use g_base::NoMemory;
use g_name::Local;
use std::alloc::Global;
use std::collections::BTreeMap;
use std::marker::Model;

/// A line of a source.
#[derive(Drop)]
pub struct Line {
    /// The label that it begins with; the rest of the line may be bad.
    pub label: Option<Local>,
    /// What it says; `None` if it has no form, or one that isn't allowed at its place.
    pub form: Option<Form>,
    /// The place of its first word, or of the next word if it has none; 32,768 at most.
    pub place: u16,
}

/// The lines of a source, which contracts see as a list, with an index of the places of their labels.
#[derive(Drop)]
pub struct Source {
    lines: Vec<Line>,
    places: BTreeMap<Local, u16>,
    size: Option<u16>,
}

impl Model for Source {
    ghost use Rattle.std.specs.Prelude.{List};
    ghost use Rattle.g_plan.specs.LineIndex.{IsIndexed};
    ghost use Rattle.g_plan.specs.declared.source.Line.{Line};

    ghost Value = { List Line };

    ghost view = { λ s. s.lines.items };

    ghost invariant = { λ s. IsIndexed s.lines.items s.places.entries s.size };
}

impl Source {
    /// No lines; allocates nothing.
    pub fn new(alloc: Global) -> Source
        ensures { result ≡ [] }
    {
        Source {
            lines: Vec::new(alloc),
            places: BTreeMap::new(alloc),
            size: None,
        }
    }

    /// The lines with one more at the end.
    pub fn with(self, line: Line) -> Result<Source, NoMemory>
        ensures { IfOk result (λ source. source ≡ self ++ line ∷ []) }
    {
        let Source {
            mut lines,
            mut places,
            size,
        } = self;
        let size = size.or(size_of(&line.form));
        note_label(&mut places, &line)?;
        lines.push(line)?;
        Ok(Source {
            lines,
            places,
            size,
        })
    }

    /// The place that a label denotes.
    pub fn place_of(&self, label: &Local) -> Option<u16>
        ensures { result ≡ resolved self.now (Named label.now) }
    {
        self.places.get(label).copied()
    }

    /// How many words the program has, if a line says it.
    pub fn size(&self) -> Option<u16>
        ensures { result ≡ size_in self.now }
    {
        self.size
    }

    /// The lines.
    pub fn lines(&self) -> &[Line]
        ensures { result.now ≡ self.now }
    {
        self.lines.as_slice()
    }
}

/// The size that a form says.
fn size_of(form: &Option<Form>) -> Option<u16>
    ensures { result ≡ size_of form.now }
{
    match form {
        Some(Form::Program(size)) => Some(*size),
        _ => None,
    }
}

/// Notes the place of a line's label, if no earlier line has it.
fn note_label(places: &mut BTreeMap<Local, u16>, line: &Line) -> Result<(), NoMemory>
    ensures { OnOk result ((label : List ℕ) → place_in places.new.entries label ≡ noted places.old.entries line.now label) }
{
    let Some(label) = &line.label else {
        return Ok(());
    };
    if !places.contains_key(label) {
        places.insert(label.copy(), line.place)?;
    }
    Ok(())
}
