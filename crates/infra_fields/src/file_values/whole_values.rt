//! Values that are read as a whole.

ghost use Rattle.std.specs.Prelude.{◌≡◌, ◌<◌, ◌≤◌, ◌∷◌, length, Err, Some, None, option_map};
ghost use Rattle.std.specs.Prelude.{IfOk, OnOk, MatchResult};
ghost use Rattle.json.specs.Json.{items, members, read_key, value};
ghost use Rattle.json.specs.Reads.{token_of};
ghost use Rattle.serde_json.specs.Data.{no_members};
ghost use Rattle.serde_json.specs.Read.{of_json, of_items, of_members, converted};
ghost use Rattle.serde_json.specs.View.{view, items_view, members_view};
ghost use Rattle.json_fields.specs.declared.texts.Unread.TheVariants.{NotJson};

use crate::file_values::value_tokens::{lone_value, opens_array, opens_object};
use json::{Reader, Token};
use json_fields::Unread;
use serde_json::{Map, Value, push, put};
use std::alloc::Global;

/// Reads one value, in which arrays and objects nest no deeper than this.
#[cycle(read)]
#[inline(always)]
pub(crate) fn read(alloc: Global, reader: &mut Reader<'_>, depth: usize) -> Result<Value, Unread>
    ensures ok { IfOk result (λ found.
        converted of_json (value depth reader.old) ≡ Some (view found, reader.new)) }
    ensures shorter { OnOk result (length reader.new < length reader.old) }
    ensures err { result ≡ Err NotJson → converted of_json (value depth reader.old) ≡ None }
{
    let token = reader.next().ok_or(Unread::NotJson)?;
    let found = read_from(alloc, token, reader, depth)?;
    Ok(found)
}

/// Reads the value that begins with this token.
#[cycle(read)]
#[inline(always)]
pub(crate) fn read_from(
    alloc: Global,
    token: Token<'_>,
    reader: &mut Reader<'_>,
    depth: usize,
) -> Result<Value, Unread>
    ensures ok { IfOk result (λ found.
        converted of_json (value depth (token_of token.entry ∷ reader.old))
        ≡ Some (view found, reader.new)) }
    ensures shorter { OnOk result (length reader.new ≤ length reader.old) }
    ensures err { result ≡ Err NotJson
        → converted of_json (value depth (token_of token.entry ∷ reader.old)) ≡ None }
{
    if opens_array(&token) {
        if depth == 0 {
            return Err(Unread::NotJson);
        }
        let list = read_items(alloc, reader, depth - 1)?;
        return Ok(Value::from(list));
    }
    if opens_object(&token) {
        if depth == 0 {
            return Err(Unread::NotJson);
        }
        let map = read_members(alloc, reader, depth - 1)?;
        return Ok(Value::from(map));
    }
    let found = lone_value(alloc, token)?;
    Ok(found)
}

#[cycle(read)]
#[inline(never)]
fn read_items(alloc: Global, reader: &mut Reader<'_>, depth: usize) -> Result<Vec<Value>, Unread>
    ensures ok { IfOk result (λ found.
        converted of_items (items (value depth) (length reader.old) reader.old)
        ≡ Some (items_view found.items, reader.new)) }
    ensures shorter { OnOk result (length reader.new < length reader.old) }
    ensures err { result ≡ Err NotJson
        → converted of_items (items (value depth) (length reader.old) reader.old) ≡ None }
{
    let mut found = Vec::new(alloc);
    'items: while !reader.take_end_array() {
        let item = read(alloc, reader, depth)?;
        let Ok(()) = push(&mut found, item) else {
            return Err(Unread::Memory);
        };
    }
    Ok(found)
}

#[cycle(read)]
#[inline(never)]
fn read_members(
    alloc: Global,
    reader: &mut Reader<'_>,
    depth: usize,
) -> Result<Map<String, Value>, Unread>
    ensures ok { IfOk result (λ found.
        converted (λ all. of_members all no_members)
        (members (value depth) (length reader.old) reader.old)
        ≡ Some (members_view found.entries, reader.new)) }
    ensures shorter { OnOk result (length reader.new < length reader.old) }
    ensures err { result ≡ Err NotJson
        → converted (λ all. of_members all no_members)
        (members (value depth) (length reader.old) reader.old) ≡ None }
{
    let mut found = Map::new(alloc);
    'members: while let Some(name) = next_key(reader)? {
        let member = read(alloc, reader, depth)?;
        let Ok(()) = put(&mut found, alloc, name, member) else {
            return Err(Unread::Memory);
        };
    }
    Ok(found)
}

/// A key, or none at the brace that closes an object.
#[inline(always)]
pub(crate) fn next_key<'a>(reader: &mut Reader<'a>) -> Result<Option<&'a str>, Unread>
    ensures { MatchResult result
        (λ key. read_key reader.old ≡ Some (option_map (λ text. text.now) key, reader.new))
        (λ unread. (unread ≡ NotJson) × (read_key reader.old ≡ None)) }
{
    let Ok(key) = reader.next_key() else {
        return Err(Unread::NotJson);
    };
    Ok(key)
}
