//! What is called between the searches of a client.

ghost use Rattle.served_clients.specs.Lending.{IsUnchanged};
ghost use Rattle.command_reports.specs.Scenes.{scene};

use outside_io::Outside;
use rail_types::Name;
use std::str;

/// What the outside has called between the searches of the client of this name.
pub fn between_of<O: Outside>(client: &Name, outside: &mut O) -> O::Btw
    ensures same { IsUnchanged (scene O.Outside outside.old) (scene O.Outside outside.new) }
{
    // A client's name is of letters, digits and a few signs, so it is text.
    let name = str::from_utf8(client.as_bytes()).unwrap_or("");
    outside.between(name)
}
