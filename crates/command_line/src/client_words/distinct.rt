//! Clients that share neither a name nor a stream.

ghost use Rattle.std.specs.Prelude.{◌≢◌, ◌↔◌, IsTrue};
ghost use Rattle.std.specs.List.{All, AllPairs};
ghost use Rattle.command_line.specs.Clients.{AreApart};

use crate::Text;
use crate::client_words::clients::ClientWord;

/// Whether no two of these clients share a name or a stream.
pub(crate) fn are_all_apart(clients: &[ClientWord]) -> bool
    ensures { IsTrue result ↔ AllPairs AreApart clients.now }
{
    let mut rest = clients;
    while let Some((first, others)) = rest.split_first() {
        if !is_apart_from(first, others) {
            return false;
        }
        rest = others;
    }
    true
}

// Whether a client shares neither its name nor a stream with any of these.
fn is_apart_from(one: &ClientWord, others: &[ClientWord]) -> bool
    ensures { IsTrue result ↔ All (AreApart one.now) others.now }
{
    for other in others {
        if !are_apart(one, other) {
            return false;
        }
    }
    true
}

fn are_apart(one: &ClientWord, other: &ClientWord) -> bool
    ensures { IsTrue result ↔ AreApart one.now other.now }
{
    !one.client.is_same(&other.client)
        && differ(&one.input, &other.input)
        && differ(&one.output, &other.output)
        && differ(&one.input, &other.output)
        && differ(&one.output, &other.input)
}

fn differ(one: &Text, other: &Text) -> bool
    ensures { IsTrue result ↔ (one.now ≢ other.now) }
{
    one.as_str() != other.as_str()
}
