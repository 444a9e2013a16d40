//! A law of the texts of refusals. It does nothing; its clauses say what holds of every refusal.
ghost use Rattle.std.specs.Prelude.{◌≡◌, ◌∷◌, ◌++◌, ℕ, List};
ghost use Rattle.std.specs.Fmt.{decimal};
ghost use Rattle.g_plain.specs.declared.faults.StoreFault.{StoreFault};
ghost use Rattle.g_plain.specs.Faults.{fault_number};
ghost use Rattle.g_monitor.specs.declared.errors.CommandError.{CommandError};
ghost use Rattle.g_monitor.specs.Refusals.{IsPrinted, fault_line, error_line, error_number};

/// The text of a refusal begins with its number and a space.
pub fn refusals_begin_with_their_numbers()
    ensures faults { (fault : StoreFault) → IsPrinted fault
        → (rest : List ℕ) × (fault_line fault ≡ decimal (fault_number fault) ++ 32 ∷ rest) }
    ensures errors { (error : CommandError)
        → (rest : List ℕ) × (error_line error ≡ decimal (error_number error) ++ 32 ∷ rest) }
{}
