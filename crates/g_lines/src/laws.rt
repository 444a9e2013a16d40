//! Laws of lines. They do nothing; their clauses say what holds of every text.
ghost use Rattle.std.specs.Prelude.{◌≡◌, ◌≢◌, ◌++◌, ◌∷◌, ℕ, List, [], All};
ghost use Rattle.g_lines.specs.Lines.{ended, lines_of, text_of};

/// Lines are preserved by the text made of them, and a text by its lines, except for the byte 10 that its last line may be missing.
pub fn lines_are_those_of_their_text()
    ensures lines { (lines : List (List ℕ)) → All (λ line. All (λ byte. byte ≢ 10) line) lines
        → lines_of (text_of lines) ≡ lines }
    ensures text { (text : List ℕ) → text_of (lines_of (ended text)) ≡ ended text }
    ensures last { (text : List ℕ) (byte : ℕ) → byte ≢ 10
        → lines_of (ended (text ++ byte ∷ [])) ≡ lines_of (text ++ byte ∷ []) }
{}
