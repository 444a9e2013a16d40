//! The second pass over a source: the words of its lines, each at its place.
ghost use Rattle.std.specs.Prelude.{◌≡◌, Ok, IfOk};
ghost use Rattle.g_plan.specs.SecondPass.{AllFit, Fits, MayFit};
ghost use Rattle.g_plan.specs.Laws.{Assembles, IsLoadedAs, size_or_none};
ghost use Rattle.g_plan.specs.Passes.{IsFilled, IsFinished, IsFormPut, IsLinePut};

use crate::fault::PlanFault;
use crate::form::Form;
use crate::given::{order_for, word_for};
use crate::image::Image;
use crate::print::program_file;
use crate::reader::read_source;
use crate::source::{Line, Source};
use g_name::Text;
use std::alloc::Global;

/// The program file of a source (`docs/MANUAL.md`, "Sources"), which `LOAD` takes. `BadPlan` has the first bad line, from 1; a
/// source of blank lines has the bad line 1.
pub fn assemble(alloc: Global, text: &[u8]) -> Result<Text, PlanFault>
    ensures answer { Assembles text.now result }
    ensures loads { IfOk result (λ file. IsLoadedAs text.now file) }
{
    let source = read_source(alloc, text)?;
    match fill(alloc, &source) {
        Ok(image) => finished(alloc, &source, &image),
        Err(fault) => Err(fault),
    }
}

/// The program file of a source whose lines are placed. A source of blank lines has no size.
fn finished(alloc: Global, source: &Source, image: &Image) -> Result<Text, PlanFault>
    requires { IsFilled source.now (Ok image.now) }
    ensures { IsFinished source.now result }
{
    match source.size() {
        Some(size) => Ok(program_file(alloc, size, image)?),
        None => Err(PlanFault::BadPlan(1)),
    }
}

/// The image of all lines, or the first that can't be placed.
fn fill(alloc: Global, source: &Source) -> Result<Image, PlanFault>
    requires { AllFit source.now }
    ensures { IsFilled source.now result }
{
    let size = size_of_program(source);
    let mut image = Image::new(alloc, size)?;
    let lines = source.lines();
    for k in 0..lines.len() {
        if !place_line(source, &lines[k], size, &mut image) {
            return Err(PlanFault::BadPlan(k + 1));
        }
    }
    Ok(image)
}

/// How many words the program has; 0 if no line says it.
fn size_of_program(source: &Source) -> usize
    ensures { result ≡ size_or_none source.now }
{
    match source.size() {
        Some(size) => usize::from(size),
        None => 0,
    }
}

/// Places the words of a line. `false` if the line is bad; then some of its words may be placed.
fn place_line(source: &Source, line: &Line, size: usize, image: &mut Image) -> bool
    requires { MayFit line.now.form }
    ensures { IsLinePut source.now size line.now image.old image.new result }
{
    match &line.form {
        Some(form) => place_form(source, form, line.place, size, image),
        None => false,
    }
}

/// Places the words of a form from a place on.
fn place_form(source: &Source, form: &Form, place: u16, size: usize, image: &mut Image) -> bool
    requires { Fits form.now }
    ensures { IsFormPut source.now size form.now place image.old image.new result }
{
    let place = usize::from(place);
    match form {
        Form::Word(value) => image.put_one(place, word_for(source, value)),
        Form::Order(name, x, m, value) => {
            image.put_one(place, order_for(source, *name, *x, *m, value))
        }
        Form::Chars(text) => image.put_chars(place, text.as_slice()),
        Form::At(to) => usize::from(*to) < size,
        Form::Nothing | Form::Program(_) => true,
    }
}
