//! Laws of sources. They do nothing; their clauses say what holds of every line.
ghost use Rattle.g_plan.specs.Laws.{ReadByForms};

/// A line is read as the one form that it has, or as none if it has no form.
pub fn lines_are_read_by_their_forms()
    ensures { ReadByForms }
{}
