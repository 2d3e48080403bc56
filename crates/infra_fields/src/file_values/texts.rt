//! From the bytes of a file to what is kept of its value.

ghost use Rattle.std.specs.Prelude.{◌≡◌, ℕ, List, Err, None, IfOk};
ghost use Rattle.serde_json.specs.Read.{read};
ghost use Rattle.decimal_quote.specs.Quoted.{IsQuoted};
ghost use Rattle.json_fields.specs.Texts.{data_of};
ghost use Rattle.json_fields.specs.declared.texts.Unread.TheVariants.{NotJson};
ghost use Rattle.infra_fields.specs.Kept.{GivesHalf};

use crate::file_values::file_lists::keep_file;
use crate::file_values::halves::Half;
use decimal_quote::quote;
use json::{Reader, Scratch};
use json_fields::Unread;
use serde_json::Value;
use std::alloc::Global;
use std::marker::Model;

/// How deep arrays and objects of a file may nest.
const MAX_DEPTH: usize = 127;

/// A file's text of JSON, its numbers quoted as by `json_fields::value_of`, with the room in which
/// its strings are read. Contracts see the text's bytes.
#[derive(Drop)]
pub struct QuotedFile {
    quoted: String,
    scratch: Scratch,
}

impl Model for QuotedFile {
    ghost use Rattle.std.specs.Prelude.{List, ℕ, string_bytes};

    ghost Value = { List ℕ };

    ghost view = { λ a. string_bytes a.quoted };
}

impl QuotedFile {
    /// The quoted text of a file of these bytes, which are let go. `NotJson` where it is no UTF-8,
    /// which has no value; `Memory` where memory was wanted.
    pub fn of(alloc: Global, bytes: Vec<u8>) -> Result<QuotedFile, Unread>
        ensures text { IfOk result
            (λ file. (quoted : List ℕ) → IsQuoted bytes.items quoted → quoted ≡ file) }
        ensures none { result ≡ Err NotJson
            → (quoted : List ℕ) → IsQuoted bytes.items quoted → data_of quoted ≡ None }
    {
        let quoted = quote(alloc, bytes.as_slice())?;
        let Ok(quoted) = String::from_utf8(quoted) else {
            return Err(Unread::NotJson);
        };
        Ok(QuotedFile {
            quoted,
            scratch: Scratch::new(alloc),
        })
    }

    /// What is kept of the file's value for a half: its lists, and what stands in their objects at
    /// keys that are read. All else is looked through for faults, and no value is made of it.
    pub fn half(&mut self, alloc: Global, half: Half) -> Result<Value, Unread>
        ensures same { self.new ≡ self.old }
        ensures kept { GivesHalf half result (data_of self.old) }
    {
        half_of_text(alloc, self.quoted.as_str(), half, &mut self.scratch)
    }
}

fn half_of_text(
    alloc: Global,
    text: &str,
    half: Half,
    scratch: &mut Scratch,
) -> Result<Value, Unread>
    ensures { GivesHalf half result (read text.now) }
{
    let Ok(mut reader) = Reader::new(text, scratch) else {
        return Err(Unread::Memory);
    };
    let value = match keep_file(alloc, &mut reader, MAX_DEPTH, half) {
        Ok(value) => value,
        Err(unread) => return Err(unread),
    };
    if reader.next().is_some() {
        return Err(Unread::NotJson);
    }
    Ok(value)
}
