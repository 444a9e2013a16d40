//! Laws of the verbs. They do nothing; their clauses say what holds of every name with every parameters.
ghost use Rattle.std.specs.Prelude.{◌≡◌, ℕ, true, List, Result};
ghost use Rattle.g_name.specs.Grammar.{is_word};
ghost use Rattle.g_verbs.specs.VerbReader.{action_read};
ghost use Rattle.g_verbs.specs.Verbs.{Says, IsRead, IsSound};
ghost use Rattle.g_verbs.specs.declared.action.Action.{Action};

/// Each name that is a word has, with any parameters, exactly one reading, which `action_read` computes: the action that the verb requests, or the
/// first bad parameter. The law says nothing of a name that is no word. The numbers of an action are within their limits.
pub fn verbs_are_read_by_their_forms()
    ensures reads { (name : List ℕ) (params : List (List ℕ)) (rest : List ℕ)
        → is_word name ≡ true → IsRead name params rest (action_read name params rest) }
    ensures one { (name : List ℕ) (params : List (List ℕ)) (rest : List ℕ) (r s : Result Action ℕ)
        → IsRead name params rest r → IsRead name params rest s → r ≡ s }
    ensures word { (name : List ℕ) (params : List (List ℕ)) (rest : List ℕ) (action : Action)
        → Says action name params rest → is_word name ≡ true }
    ensures sound { (name : List ℕ) (params : List (List ℕ)) (rest : List ℕ) (action : Action)
        → Says action name params rest → IsSound action }
{}
