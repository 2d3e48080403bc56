//! Values that are passed over: nothing is made of them.

ghost use Rattle.std.specs.Prelude.{◌≡◌, ◌<◌, length, Err, None, OnOk};
ghost use Rattle.json.specs.Json.{items, members, value};
ghost use Rattle.serde_json.specs.Data.{no_members};
ghost use Rattle.serde_json.specs.Read.{of_json, of_items, of_members, converted};
ghost use Rattle.json_fields.specs.declared.texts.Unread.TheVariants.{NotJson};
ghost use Rattle.infra_fields.specs.Tokens.{Passes};

use crate::file_values::value_tokens::{is_lone_value, opens_array, opens_object};
use crate::file_values::whole_values::next_key;
use json::Reader;
use json_fields::Unread;

/// Passes over one value, in which arrays and objects nest no deeper than this.
#[cycle(pass)]
#[inline(always)]
pub(crate) fn pass(reader: &mut Reader<'_>, depth: usize) -> Result<(), Unread>
    ensures ok { OnOk result (Passes (converted of_json (value depth reader.old)) reader.new) }
    ensures shorter { OnOk result (length reader.new < length reader.old) }
    ensures err { result ≡ Err NotJson → converted of_json (value depth reader.old) ≡ None }
{
    let token = reader.next().ok_or(Unread::NotJson)?;
    if opens_array(&token) {
        if depth == 0 {
            return Err(Unread::NotJson);
        }
        pass_items(reader, depth - 1)?;
        return Ok(());
    }
    if opens_object(&token) {
        if depth == 0 {
            return Err(Unread::NotJson);
        }
        pass_members(reader, depth - 1)?;
        return Ok(());
    }
    if !is_lone_value(token) {
        return Err(Unread::NotJson);
    }
    Ok(())
}

#[cycle(pass)]
#[inline(never)]
fn pass_items(reader: &mut Reader<'_>, depth: usize) -> Result<(), Unread>
    ensures ok { OnOk result (Passes
        (converted of_items (items (value depth) (length reader.old) reader.old)) reader.new) }
    ensures shorter { OnOk result (length reader.new < length reader.old) }
    ensures err { result ≡ Err NotJson
        → converted of_items (items (value depth) (length reader.old) reader.old) ≡ None }
{
    'items: while !reader.take_end_array() {
        pass(reader, depth)?;
    }
    Ok(())
}

#[cycle(pass)]
#[inline(never)]
fn pass_members(reader: &mut Reader<'_>, depth: usize) -> Result<(), Unread>
    ensures ok { OnOk result (Passes
        (converted (λ found. of_members found no_members)
        (members (value depth) (length reader.old) reader.old)) reader.new) }
    ensures shorter { OnOk result (length reader.new < length reader.old) }
    ensures err { result ≡ Err NotJson
        → converted (λ found. of_members found no_members)
        (members (value depth) (length reader.old) reader.old) ≡ None }
{
    'members: while let Some(_) = next_key(reader)? {
        pass(reader, depth)?;
    }
    Ok(())
}
