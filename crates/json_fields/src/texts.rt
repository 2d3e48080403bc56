//! From the bytes of a file to its value.

ghost use Rattle.std.specs.Prelude.{◌≡◌, ℕ, List};
ghost use Rattle.serde_json.specs.View.{view};
ghost use Rattle.decimal_quote.specs.Quoted.{IsQuoted};
ghost use Rattle.json_fields.specs.Reading.{Gives, or_fault};
ghost use Rattle.json_fields.specs.Texts.{data_of};
ghost use Rattle.json_fields.specs.declared.texts.Unread.TheVariants.{NotJson, Memory};

use decimal_quote::quote;
use no_memory::NoMemory;
use serde_json::Value;
use std::alloc::Global;
use std::str;
use thiserror::Error;

/// Why bytes have no value.
#[derive(Clone, Copy, Debug, PartialEq, Eq, Error)]
pub enum Unread {
    /// With their numbers quoted they are no text of JSON.
    #[error("not a text of JSON")]
    NotJson,
    /// The memory that was needed was not there.
    #[error("no memory")]
    Memory,
}

impl From<NoMemory> for Unread {
    ghost from_gives = { λ _ e. e ≡ Memory };

    fn from(_refused: NoMemory) -> Unread {
        Unread::Memory
    }
}

/// The value of a text of JSON (RFC 8259) in which numbers stand between quotation marks where a
/// float would be needed to hold them: no float is ever made.
pub fn value_of(alloc: Global, bytes: &[u8]) -> Result<Value, Unread>
    ensures { (quoted : List ℕ) → IsQuoted bytes.now quoted →
        Gives Memory view result (or_fault NotJson (data_of quoted)) }
{
    let quoted = quote(alloc, bytes)?;
    let value = value_of_quoted(alloc, quoted.as_slice())?;
    Ok(value)
}

#[tactic(auto, using(crate::proofs::Bytes::data_of_text, crate::proofs::Bytes::data_of_other))]
fn value_of_quoted(alloc: Global, quoted: &[u8]) -> Result<Value, Unread>
    ensures { Gives Memory view result (or_fault NotJson (data_of quoted.now)) }
{
    let Ok(text) = str::from_utf8(quoted) else {
        return Err(Unread::NotJson);
    };
    match Value::from_str(alloc, text) {
        Ok(value) => Ok(value),
        Err(error) => {
            if error.is_memory() {
                Err(Unread::Memory)
            } else {
                Err(Unread::NotJson)
            }
        }
    }
}
