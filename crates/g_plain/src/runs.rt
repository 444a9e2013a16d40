//! Laws of programs that call a store: their answers, and runs on the store that a store represents.
ghost use Rattle.std.specs.Prelude.{ℕ, List};
ghost use Rattle.g_plain.specs.PlainTree.{Tree};
ghost use Rattle.g_plain.specs.Programs.{Answer, Asks, Ran, RanInPart};
ghost use Rattle.g_plain.specs.PlainAnswers.{RanPlainly};
ghost use Rattle.g_plain.specs.Runs.{RanBy};

use crate::Filestore;

/// A store that represents another one: what it answers, the other one answers.
pub trait StandsFor<T: Filestore>: Filestore {
    ghost use Rattle.std.specs.Prelude.{ℕ, List};
    ghost use Rattle.g_plain.specs.declared.calls.StoreCall.{StoreCall};
    ghost use Rattle.g_plain.specs.Programs.{Answer};

    // The store that it represents.
    ghost stands: { Self → T };

    ghost along: { (old : Self) (who : List ℕ) (call : StoreCall) (answer : Answer) (new : Self)
        → Self.answers old who call answer new
        → T.answers (stands old) who call answer (stands new) };
}

/// A store that holds a tree: each answer except out of memory is that of the plain step, a refusal of a device or a
/// stop, and the tree changes accordingly.
pub trait HoldsTree: Filestore {
    ghost use Rattle.std.specs.Prelude.{ℕ, List};
    ghost use Rattle.g_plain.specs.declared.calls.StoreCall.{StoreCall};
    ghost use Rattle.g_plain.specs.PlainTree.{Tree};
    ghost use Rattle.g_plain.specs.Programs.{Answer, IsAnswer};
    ghost use Rattle.g_plain.specs.PlainAnswers.{PlainOrDevice};

    // The store holds this tree.
    ghost holds: { Self → Tree → Type 0 };

    ghost plainly: { (old : Self) (t : Tree) (who : List ℕ)
        (call : StoreCall) (answer : Answer) (new : Self)
        → holds old t → Self.answers old who call answer new → IsAnswer answer
        → (after : Tree) × PlainOrDevice t who call answer after × holds new after };
}

/// A program that ran got some answers, and a program that ran with some answers ran.
pub fn runs_have_answers<S: Filestore, A>()
    ensures some { (who : List ℕ) (p : Asks A) (old : S) (given : A) (new : S)
        → Ran S.answers who old p given new
        → (told : List Answer) × RanBy S.answers who old p told given new }
    ensures ran { (who : List ℕ) (p : Asks A) (told : List Answer) (old : S) (given : A) (new : S)
        → RanBy S.answers who old p told given new → Ran S.answers who old p given new }
{}

/// A program that ran on a store, completely or until memory ran out, ran in the same way on the store that this one
/// represents.
pub fn runs_go_along<T: Filestore, S: StandsFor<T>, A>()
    ensures whole { (who : List ℕ) (old : S) (p : Asks A) (given : A) (new : S)
        → Ran S.answers who old p given new
        → Ran T.answers who (S.stands old) p given (S.stands new) }
    ensures part { (who : List ℕ) (old : S) (p : Asks A) (new : S)
        → RanInPart S.answers who old p new
        → RanInPart T.answers who (S.stands old) p (S.stands new) }
{}

/// A program that ran on a store that holds a tree is a program that ran on that tree.
pub fn runs_are_plain<S: HoldsTree, A>()
    ensures { (who : List ℕ) (old : S) (p : Asks A) (given : A) (new : S) (t : Tree)
        → S.holds old t → Ran S.answers who old p given new
        → (after : Tree) × RanPlainly who t p given after × S.holds new after }
{}
