//! Words request at most one thing.
ghost use Rattle.std.specs.Prelude.{◌≡◌};
ghost use Rattle.g_demo.specs.Words.{IsAsked, words_of};
ghost use Rattle.g_demo.specs.declared.words.Asked.{Asked};

/// If words are those of two requests, the two are equal.
pub fn words_have_one_reading()
    ensures { (one other : Asked) → IsAsked one → IsAsked other → words_of one ≡ words_of other → one ≡ other }
{}
