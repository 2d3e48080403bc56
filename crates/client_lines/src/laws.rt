//! Laws of the definitions, each on a function that does nothing.

ghost use Rattle.std.specs.Prelude.{◌≡◌, ℕ, List};
ghost use Rattle.rail_types.specs.declared.trains.Request.{Request as request_type};
ghost use Rattle.client_lines.specs.declared.asks.Ask.TheVariants.{Path as asks_for};
ghost use Rattle.client_lines.specs.declared.asks.Line.{Line as line_type};
ghost use Rattle.client_lines.specs.Forms.{Spells};
ghost use Rattle.client_lines.specs.Lines.{a_line, a_request};
ghost use Rattle.client_lines.specs.Names.{Names};
ghost use Rattle.client_lines.specs.Within.{AreSound, IsLineWithin};

/// What a line spells is within the limits, and speaks of what the network has.
pub fn lines_are_within_limits()
    ensures { (known : Names) (fields : List (List ℕ)) (line : line_type) → AreSound known
        → Spells (a_line known) fields line → IsLineWithin known.railway.network line }
{}

/// A line that asks for a path spells what is requested.
pub fn asks_spell_requests()
    ensures { (known : Names) (fields : List (List ℕ)) (line : line_type) (number : ℕ)
        (request : request_type) → Spells (a_line known) fields line
        → line.ask ≡ asks_for number request
        → (part : List (List ℕ)) × Spells (a_request known) part request }
{}
