//! The definition of a reading admits only one.
ghost use Rattle.std.specs.Prelude.{◌≡◌, ℕ, List, Option};
ghost use Rattle.g_script.specs.declared.operator.Timed.{Timed};
ghost use Rattle.g_script.specs.Script.{IsParsed};

/// The lines of a script determine what it requests and its bad line.
pub fn one_reading()
    ensures { (lines : List (List ℕ)) (said other : List Timed) (bad other_bad : Option ℕ) →
        IsParsed lines said bad → IsParsed lines other other_bad → (said ≡ other) × (bad ≡ other_bad) }
{}
