//! Laws of the language. They do nothing; their clauses say what holds of every text.
ghost use Rattle.std.specs.Prelude.{◌≡◌, ◌↔◌, true, ℕ, List, Option, None, Some, Ok};
ghost use Rattle.g_lang.specs.Conditions.{same_cond};
ghost use Rattle.g_lang.specs.LineReader.{reading};
ghost use Rattle.g_lang.specs.Lines.{Written, IsWritten, command_text, said_by, WrittenLine, IsLine, line_text, said_in, Said, KeepsCommand, Reading, IsReading};
ghost use Rattle.g_lang.specs.Words.{label_in};
ghost use Rattle.g_lang.specs.declared.line.Cond.{Cond};

/// Each text has exactly one reading, which `reading` computes: what some written line of this text says, or the place where it stops being the
/// beginning of a line. A written line reads back; the label of a line is its first word; the command stored for a condition is the text of a
/// command.
pub fn lines_are_read_by_the_grammar()
    ensures reads { (text : List ℕ) → IsReading text (reading text) }
    ensures one { (text : List ℕ) (r s : Reading) → IsReading text r → IsReading text s → r ≡ s }
    ensures written { (l : WrittenLine) → IsLine l → reading (line_text l) ≡ Ok (said_in l) }
    ensures command { (w : Written) → IsWritten w
        → reading (command_text w) ≡ Ok (record { label = None; command = Some (said_by w) }) }
    ensures label { (l : WrittenLine) → IsLine l → label_in (line_text l) ≡ l.label }
    ensures waiting { (text : List ℕ) (label : Option (List ℕ)) (said : Said)
        → reading text ≡ Ok (record { label = label; command = Some said }) → KeepsCommand said }
{}

/// Two conditions are the same if and only if they are equal: negation, test, letter and text.
pub fn same_conditions_are_equal()
    ensures { (a b : Cond) → (same_cond a b ≡ true) ↔ (a ≡ b) }
{}
