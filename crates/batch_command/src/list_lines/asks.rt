//! Lines that ask for a path.

ghost use Rattle.std.specs.Prelude.{◌≡◌, ◌≤◌, length};
ghost use Rattle.served_clients.specs.sessions.declared.sessions.TheConstants.{MAX_LINES};
ghost use Rattle.batch_command.specs.Asks.{first_field, first_no_ask, is_ask};

use rail_types::Name;
use served_clients::sessions::cut_at;

/// The number of the first line, counted from 1, whose first field is not `ask`,
/// and None where there is none.
pub fn first_no_ask(lines: &[Name]) -> Option<u32>
    requires { length lines.now ≤ MAX_LINES }
    ensures { result ≡ first_no_ask 1 lines.now }
{
    let mut number = 1;
    for line in lines {
        if !is_ask(line.as_bytes()) {
            return Some(number);
        }
        number += 1;
    }
    None
}

// Whether the first field of a line is `ask`.
fn is_ask(line: &[u8]) -> bool
    ensures { result ≡ is_ask line.now }
{
    first_field(line) == b"ask".as_slice()
}

// What stands before the first space of a line.
fn first_field(line: &[u8]) -> &[u8]
    ensures { result.now ≡ first_field line.now }
{
    match cut_at(b' ', line) {
        Some((first, _)) => first,
        None => line,
    }
}
