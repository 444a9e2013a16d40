//! The outputs of a job: eight line printers and eight tape punches.

ghost use Rattle.std.specs.Prelude.{◌≡◌, ◌++◌, ◌<◌, replicate, slice_set, None, IfOk, OnErr, OnOk};
ghost use Rattle.std.specs.Option.{option_map};
ghost use Rattle.g_peri.specs.JobUnits.{at_place};

use g_base::NoMemory;
use g_name::{Path, Text};
use std::alloc::Global;
use std::marker::Model;

/// The outputs of the printers, followed by those of the punches, each with its path, or none. Contracts see one list of sixteen. It is stored as two
/// lists because each job allocates them, and one list of all would be larger than the sizes that an allocator keeps ready.
#[derive(Drop)]
pub(crate) struct Writers {
    printers: Vec<Option<(Path, Text)>>,
    punches: Vec<Option<(Path, Text)>>,
}

impl Model for Writers {
    ghost use Rattle.std.specs.Prelude.{◌≡◌, ◌++◌, ℕ, List, Option, vec_len};
    ghost use Rattle.std.specs.Coded.{codes};
    ghost use Rattle.g_name.specs.contracts.path.Path as path;
    ghost use Rattle.g_name.specs.declared.path.Path.{Path};

    ghost Value = { List (Option (Path × List ℕ)) };

    ghost coded = { Prim.hlevel (codes, path.the_row.coded) };

    ghost view = { λ w. w.printers.items ++ w.punches.items };

    ghost invariant = { λ w. (vec_len w.printers ≡ 8) × (vec_len w.punches ≡ 8) };
}

impl Writers {
    /// Sixteen places without output.
    pub(crate) fn new(alloc: Global) -> Result<Writers, NoMemory>
        ensures { IfOk result (λ w. w ≡ replicate 16 None) }
    {
        let printers = vacant(alloc, 8)?;
        let punches = vacant(alloc, 8)?;
        Ok(Writers { printers, punches })
    }

    /// The output at this place, or none.
    #[tactic(auto, using(crate::proofs::WriterLemmas::at_first, crate::proofs::WriterLemmas::at_second))]
    pub(crate) fn get(&self, place: usize) -> &Option<(Path, Text)>
        requires { place < 16 }
        ensures { result.now ≡ at_place self.now place }
    {
        if place < 8 {
            &self.printers[place]
        } else {
            &self.punches[place - 8]
        }
    }

    /// Sets the output at a place.
    #[tactic(auto, using(crate::proofs::WriterLemmas::put_first, crate::proofs::WriterLemmas::put_second))]
    pub(crate) fn set(&mut self, place: usize, output: Option<(Path, Text)>)
        requires { place < 16 }
        ensures { self.new ≡ slice_set self.old place output }
    {
        if place < 8 {
            self.printers[place] = output;
        } else {
            self.punches[place - 8] = output;
        }
    }

    /// Takes the output at a place.
    #[tactic(auto, using(crate::proofs::WriterLemmas::at_first, crate::proofs::WriterLemmas::at_second, crate::proofs::WriterLemmas::put_first, crate::proofs::WriterLemmas::put_second))]
    pub(crate) fn take(&mut self, place: usize) -> Option<(Path, Text)>
        requires { place < 16 }
        ensures value { result ≡ at_place self.old place }
        ensures new { self.new ≡ slice_set self.old place None }
    {
        if place < 8 {
            self.printers[place].take()
        } else {
            self.punches[place - 8].take()
        }
    }

    /// Appends bytes to the output at a place, if there is one.
    #[tactic(auto, using(crate::proofs::WriterLemmas::at_first, crate::proofs::WriterLemmas::at_second, crate::proofs::WriterLemmas::put_first, crate::proofs::WriterLemmas::put_second))]
    pub(crate) fn extend(&mut self, place: usize, bytes: &[u8]) -> Result<(), NoMemory>
        requires { place < 16 }
        ensures ok { OnOk result (self.new ≡ slice_set self.old place
            (option_map (λ o. (o.0, o.1 ++ bytes.now)) (at_place self.old place))) }
        ensures err { OnErr result (self.new ≡ self.old) }
    {
        if place < 8 {
            extend_output(&mut self.printers[place], bytes)
        } else {
            extend_output(&mut self.punches[place - 8], bytes)
        }
    }
}

/// Appends bytes to an output, if there is one.
fn extend_output(output: &mut Option<(Path, Text)>, bytes: &[u8]) -> Result<(), NoMemory>
    ensures ok { OnOk result (output.new ≡ option_map (λ o. (o.0, o.1 ++ bytes.now)) output.old) }
    ensures err { OnErr result (output.new ≡ output.old) }
{
    match output {
        Some((_path, text)) => text.extend(bytes),
        None => Ok(()),
    }
}

/// This many empty places.
pub(crate) fn vacant<T: Drop>(alloc: Global, count: usize) -> Result<Vec<Option<T>>, NoMemory>
    ensures { IfOk result (λ v. v.items ≡ replicate count None) }
{
    let mut places = Vec::with_capacity(alloc, count)?;
    for _ in 0..count {
        places.push_reserved(None);
    }
    Ok(places)
}
