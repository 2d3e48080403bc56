//! Laws of seats, each on a function that does nothing.

ghost use Rattle.std.specs.Prelude.{◌≡◌, ◌*◌};
ghost use Rattle.line_sessions.specs.declared.sessions.TheConstants.{MAX_LINES};
ghost use Rattle.served_clients.specs.declared.client_seats.gates.TheConstants.{TURNS_OF_A_CLIENT};

/// The limits of seats: four turns for each line that a client may send.
pub fn limits_are_these()
    ensures turns { TURNS_OF_A_CLIENT ≡ 4 * MAX_LINES }
{}
