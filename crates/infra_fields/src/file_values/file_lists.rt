//! Files of which only the lists of a half are kept.

ghost use Rattle.std.specs.Prelude.{◌≡◌, ◌<◌, length, Err, None, IfOk, OnOk};
ghost use Rattle.json.specs.Json.{members, value};
ghost use Rattle.serde_json.specs.Data.{no_members};
ghost use Rattle.serde_json.specs.Read.{of_json, of_members, converted};
ghost use Rattle.serde_json.specs.View.{view, members_view};
ghost use Rattle.json_fields.specs.declared.texts.Unread.TheVariants.{NotJson};
ghost use Rattle.infra_fields.specs.Tokens.{ParsesTo};
ghost use Rattle.infra_fields.specs.Kept.{KeepsHalf, KeepsLists, TakesMember};

use crate::file_values::halves::{Half, is_in};
use crate::file_values::kept_values::keep_list;
use crate::file_values::passing::pass;
use crate::file_values::value_tokens::opens_object;
use crate::file_values::whole_values::{next_key, read_from};
use json::Reader;
use json_fields::Unread;
use serde_json::{Map, Value, put};
use std::alloc::Global;

/// How many objects deep keys are looked at in a list: its objects, and those of lists in them.
const LIST_LEVELS: usize = 2;

/// Reads a file, in which arrays and objects nest no deeper than this.
pub(crate) fn keep_file(
    alloc: Global,
    reader: &mut Reader<'_>,
    depth: usize,
    half: Half,
) -> Result<Value, Unread>
    requires { 5 < depth }
    ensures ok { IfOk result (λ kept. ParsesTo (KeepsHalf half)
        (converted of_json (value depth reader.old)) (view kept) reader.new) }
    ensures err { result ≡ Err NotJson → converted of_json (value depth reader.old) ≡ None }
{
    let token = reader.next().ok_or(Unread::NotJson)?;
    if opens_object(&token) {
        let lists = keep_lists(alloc, reader, depth - 1, half)?;
        return Ok(Value::from(lists));
    }
    let other = read_from(alloc, token, reader, depth)?;
    Ok(other)
}

/// Reads the members of a file.
fn keep_lists(
    alloc: Global,
    reader: &mut Reader<'_>,
    depth: usize,
    half: Half,
) -> Result<Map<String, Value>, Unread>
    requires { 4 < depth }
    ensures ok { IfOk result (λ kept. ParsesTo (KeepsLists half)
        (converted (λ all. of_members all no_members)
        (members (value depth) (length reader.old) reader.old))
        (members_view kept.entries) reader.new) }
    ensures err { result ≡ Err NotJson
        → converted (λ all. of_members all no_members)
        (members (value depth) (length reader.old) reader.old) ≡ None }
{
    let mut kept = Map::new(alloc);
    'members: while let Some(name) = next_key(reader)? {
        take_list(alloc, reader, depth, half, name, &mut kept)?;
    }
    Ok(kept)
}

/// Reads the value at a key, and keeps it where the half has the list at that key.
fn take_list(
    alloc: Global,
    reader: &mut Reader<'_>,
    depth: usize,
    half: Half,
    name: &str,
    kept: &mut Map<String, Value>,
) -> Result<(), Unread>
    requires { 4 < depth }
    ensures ok { OnOk result (TakesMember (KeepsLists half)
        (converted of_json (value depth reader.old)) reader.new name.now
        (members_view kept.old.entries) (members_view kept.new.entries)) }
    ensures shorter { OnOk result (length reader.new < length reader.old) }
    ensures err { result ≡ Err NotJson → converted of_json (value depth reader.old) ≡ None }
{
    if !is_in(half, name) {
        pass(reader, depth)?;
        return Ok(());
    }
    let list = keep_list(alloc, reader, depth, LIST_LEVELS)?;
    let Ok(()) = put(kept, alloc, name, list) else {
        return Err(Unread::Memory);
    };
    Ok(())
}
