//! Laws of the plain step, which hold for every store whose answers are those of the plain step.
ghost use Rattle.std.specs.Prelude.{◌≡◌, ℕ, List, IsErr};
ghost use Rattle.g_plain.specs.declared.calls.StoreCall.{StoreCall};
ghost use Rattle.g_plain.specs.PlainTree.{Tree, formatted};
ghost use Rattle.g_plain.specs.PlainStep.{plain_answer, plain_tree};
ghost use Rattle.g_plain.specs.Rules.{IsTree, IsWithinLimits, IsNamed};

/// The tree of a new filestore satisfies the rules of a tree. Each call preserves them if its budgets are within their
/// limits, its new names are valid, and its modes are a number below 32.
pub fn plain_step_keeps_rules()
    ensures first { IsTree formatted }
    ensures step { (t : Tree) (who : List ℕ) (call : StoreCall)
        → IsTree t → IsWithinLimits call → IsNamed call → IsTree (plain_tree t who call) }
{}

/// A refused call changes nothing.
pub fn plain_refusal_changes_nothing()
    ensures { (t : Tree) (who : List ℕ) (call : StoreCall)
        → IsErr (plain_answer t who call) → plain_tree t who call ≡ t }
{}
