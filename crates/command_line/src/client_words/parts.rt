//! The parts of a client's word.

ghost use Rattle.std.specs.Prelude.{◌≡◌, ◌≢◌, ◌↔◌, ℕ, List, IfNone, IfSome, IsSomeAnd, IsTrue};
ghost use Rattle.command_line.specs.Spelling.{equals_sign, IsCutAt, Lacks};
ghost use Rattle.rail_types.specs.Limits.{IsClientName};
ghost use Rattle.command_line.specs.Clients.{colon, IsStreamName, joined_client};
ghost use Rattle.command_line.specs.Parts.{AreClientParts};

use rail_types::is_client_name;

/// The parts of a client's word: NAME, IN and OUT of `NAME=IN:OUT`.
#[derive(Clone, Copy)]
pub(crate) struct ClientParts<'a> {
    pub name: &'a str,
    pub input: &'a str,
    pub output: &'a str,
}

/// Cuts a word at its first `=`, and what follows at its first `:`.
pub(crate) fn split_client(word: &str) -> Option<ClientParts<'_>>
    ensures joined { IfSome result
        (λ parts. word.now ≡ joined_client parts.name.now parts.input.now parts.output.now) }
    ensures only { (name input output : List ℕ) → Lacks equals_sign name → Lacks colon input
        → word.now ≡ joined_client name input output
        → IsSomeAnd result (λ parts. (parts.name.now ≡ name) × (parts.input.now ≡ input)
        × (parts.output.now ≡ output)) }
{
    match word.split_once('=') {
        None => None,
        Some((name, streams)) => match streams.split_once(':') {
            None => None,
            Some((input, output)) => Some(ClientParts {
                name,
                input,
                output,
            }),
        },
    }
}

/// Whether the parts are a client's name and two streams.
pub(crate) fn is_client(parts: &ClientParts<'_>) -> bool
    ensures { IsTrue result
        ↔ AreClientParts parts.now.name.now parts.now.input.now parts.now.output.now }
{
    is_client_name(parts.name.as_bytes())
        && is_stream_name(parts.input)
        && is_stream_name(parts.output)
        && differ(parts.input, parts.output)
}

fn differ(one: &str, other: &str) -> bool
    ensures { IsTrue result ↔ (one.now ≢ other.now) }
{
    one != other
}

fn is_stream_name(name: &str) -> bool
    ensures { IsTrue result ↔ IsStreamName name.now }
{
    if name.is_empty() {
        return false;
    }
    match cut_at_colon(name) {
        None => true,
        Some(_) => false,
    }
}

/// What stands before the first `:` of a text, and what stands behind it:
/// None where the text has none.
pub fn cut_at_colon(text: &str) -> Option<(&str, &str)>
    ensures found { IfSome result (λ parts. IsCutAt colon text.now parts.0.now parts.1.now) }
    ensures absent { IfNone result (Lacks colon text.now) }
{
    match text.split_once(':') {
        None => None,
        Some(parts) => Some(parts),
    }
}
