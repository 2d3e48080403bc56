//! Lists of objects of which only the members at keys that are read are kept.
//!
//! `levels` counts the objects that are so read, each in a list of the one before; those further
//! in are read as a whole.

ghost use Rattle.std.specs.Prelude.{◌≡◌, ◌+◌, ◌*◌, ◌<◌, ◌≤◌, length, map, Err, Some, None};
ghost use Rattle.std.specs.Prelude.{IfOk, OnOk};
ghost use Rattle.json.specs.Json.{items, members, value};
ghost use Rattle.serde_json.specs.Data.{no_members};
ghost use Rattle.serde_json.specs.Read.{of_json, of_items, of_members, converted};
ghost use Rattle.serde_json.specs.View.{view, members_view};
ghost use Rattle.json_fields.specs.declared.texts.Unread.TheVariants.{NotJson};
ghost use Rattle.infra_fields.specs.Fields.{list_of};
ghost use Rattle.infra_fields.specs.Tokens.{ParsesTo};
ghost use Rattle.infra_fields.specs.Kept.{is_list, Each, Keeps, KeepsBy, KeepsFields, KeepsItems};
ghost use Rattle.infra_fields.specs.Kept.{TakesMember};

use crate::file_values::passing::pass;
use crate::file_values::read_keys::{is_list, is_read};
use crate::file_values::value_tokens::{opens_array, opens_object};
use crate::file_values::whole_values::{next_key, read, read_from};
use json::Reader;
use json_fields::Unread;
use serde_json::{Map, Value, push, put};
use std::alloc::Global;

/// Reads an object, in which arrays and objects nest no deeper than this.
#[cycle(keep)]
fn keep(
    alloc: Global,
    reader: &mut Reader<'_>,
    depth: usize,
    levels: usize,
) -> Result<Value, Unread>
    requires { 2 * levels ≤ depth }
    ensures ok { IfOk result (λ kept. ParsesTo (Keeps levels)
        (converted of_json (value depth reader.old)) (view kept) reader.new) }
    ensures shorter { OnOk result (length reader.new < length reader.old) }
    ensures err { result ≡ Err NotJson → converted of_json (value depth reader.old) ≡ None }
{
    let token = reader.next().ok_or(Unread::NotJson)?;
    if levels > 0 {
        if opens_object(&token) {
            let members = keep_members(alloc, reader, depth - 1, levels - 1)?;
            return Ok(Value::from(members));
        }
    }
    let other = read_from(alloc, token, reader, depth)?;
    Ok(other)
}

/// Reads the members of an object.
#[cycle(keep)]
fn keep_members(
    alloc: Global,
    reader: &mut Reader<'_>,
    depth: usize,
    levels: usize,
) -> Result<Map<String, Value>, Unread>
    requires { 2 * levels < depth }
    ensures ok { IfOk result (λ kept. ParsesTo (KeepsFields levels)
        (converted (λ all. of_members all no_members)
        (members (value depth) (length reader.old) reader.old))
        (members_view kept.entries) reader.new) }
    ensures shorter { OnOk result (length reader.new < length reader.old) }
    ensures err { result ≡ Err NotJson
        → converted (λ all. of_members all no_members)
        (members (value depth) (length reader.old) reader.old) ≡ None }
{
    let mut kept = Map::new(alloc);
    'members: while let Some(name) = next_key(reader)? {
        take_member(alloc, reader, depth, levels, name, &mut kept)?;
    }
    Ok(kept)
}

/// Reads the value at a key, and keeps it where objects are read at that key.
#[cycle(keep)]
fn take_member(
    alloc: Global,
    reader: &mut Reader<'_>,
    depth: usize,
    levels: usize,
    name: &str,
    kept: &mut Map<String, Value>,
) -> Result<(), Unread>
    requires { 2 * levels < depth }
    ensures ok { OnOk result (TakesMember (KeepsFields levels)
        (converted of_json (value depth reader.old)) reader.new name.now
        (members_view kept.old.entries) (members_view kept.new.entries)) }
    ensures shorter { OnOk result (length reader.new < length reader.old) }
    ensures err { result ≡ Err NotJson → converted of_json (value depth reader.old) ≡ None }
{
    if !is_read(name) {
        pass(reader, depth)?;
        return Ok(());
    }
    let member = member_value(alloc, reader, depth, levels, name)?;
    let Ok(()) = put(kept, alloc, name, member) else {
        return Err(Unread::Memory);
    };
    Ok(())
}

/// Reads the value at a key at which objects are read.
#[cycle(keep)]
fn member_value(
    alloc: Global,
    reader: &mut Reader<'_>,
    depth: usize,
    levels: usize,
    name: &str,
) -> Result<Value, Unread>
    requires { 2 * levels < depth }
    ensures ok { IfOk result (λ kept. ParsesTo
        (λ all kept. KeepsBy (Keeps levels) (is_list name.now) (Some all) (Some kept))
        (converted of_json (value depth reader.old)) (view kept) reader.new) }
    ensures shorter { OnOk result (length reader.new < length reader.old) }
    ensures err { result ≡ Err NotJson → converted of_json (value depth reader.old) ≡ None }
{
    if is_list(name) {
        let list = keep_list(alloc, reader, depth, levels)?;
        return Ok(list);
    }
    let whole = read(alloc, reader, depth)?;
    Ok(whole)
}

/// Reads a list of objects, in which arrays and objects nest no deeper than this.
#[cycle(keep)]
pub(crate) fn keep_list(
    alloc: Global,
    reader: &mut Reader<'_>,
    depth: usize,
    levels: usize,
) -> Result<Value, Unread>
    requires { 2 * levels < depth }
    ensures ok { IfOk result (λ kept. ParsesTo (KeepsItems (Keeps levels))
        (converted of_json (value depth reader.old)) (view kept) reader.new) }
    ensures shorter { OnOk result (length reader.new < length reader.old) }
    ensures err { result ≡ Err NotJson → converted of_json (value depth reader.old) ≡ None }
{
    let token = reader.next().ok_or(Unread::NotJson)?;
    if opens_array(&token) {
        let objects = keep_items(alloc, reader, depth - 1, levels)?;
        return Ok(Value::from(objects));
    }
    let other = read_from(alloc, token, reader, depth)?;
    Ok(other)
}

/// Reads the items of a list.
#[cycle(keep)]
fn keep_items(
    alloc: Global,
    reader: &mut Reader<'_>,
    depth: usize,
    levels: usize,
) -> Result<Vec<Value>, Unread>
    requires { 2 * levels ≤ depth }
    ensures ok { IfOk result (λ kept. ParsesTo
        (λ all objects. Each (Keeps levels) (list_of all) objects)
        (converted of_items (items (value depth) (length reader.old) reader.old))
        (map view kept.items) reader.new) }
    ensures shorter { OnOk result (length reader.new < length reader.old) }
    ensures err { result ≡ Err NotJson
        → converted of_items (items (value depth) (length reader.old) reader.old) ≡ None }
{
    let mut kept = Vec::new(alloc);
    'items: while !reader.take_end_array() {
        let object = keep(alloc, reader, depth, levels)?;
        let Ok(()) = push(&mut kept, object) else {
            return Err(Unread::Memory);
        };
    }
    Ok(kept)
}
