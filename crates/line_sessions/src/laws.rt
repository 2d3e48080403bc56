//! Laws of the definitions, each on a function that does nothing.

ghost use Rattle.std.specs.Prelude.{◌≡◌, ℕ, List, ◌++◌, All};
ghost use Rattle.client_lines.specs.declared.lines.TheConstants.{MAX_LINE_BYTES};
ghost use Rattle.line_sessions.specs.declared.sessions.TheConstants.{MAX_LINES};
ghost use Rattle.line_sessions.specs.Lines.{ended, HasNoEnd, lines_of, unless_empty};

/// An input is cut at its line ends: behind lines with their ends a last part
/// counts where it is not empty.
pub fn inputs_are_cut_at_line_ends()
    ensures { (lines : List (List ℕ)) (rest : List ℕ) → All HasNoEnd lines → HasNoEnd rest
        → lines_of (ended lines ++ rest) ≡ lines ++ unless_empty rest }
{}

/// The limits of sessions.
pub fn limits_are_these()
    ensures lines { MAX_LINES ≡ 100000 }
    ensures line_bytes { MAX_LINE_BYTES ≡ 65536 }
{}
