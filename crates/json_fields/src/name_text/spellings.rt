//! The names that texts spell.

ghost use Rattle.std.specs.Prelude.{◌≡◌, ◌<◌, ◌++◌, ℕ, List, Some, OnOk, option_map, IfOk, IfSome};
ghost use Rattle.json_fields.specs.Escapes.{escaped, is_plain};
ghost use Rattle.json_fields.specs.Spellings.{AreBytes, Spells};
ghost use Rattle.json_fields.specs.NameReading.{found_bytes, hex_value, IsHalf, name_in, step_of};

use no_memory::NoMemory;
use std::alloc::Global;

/// How much of an escape is read: nothing, its `%`, or the value of its first digit too.
#[derive(Clone, Copy, Debug, PartialEq, Eq)]
enum Escape {
    Outside,
    Begun,
    Halfway(u8),
}

/// What a byte of a spelled name ends: a byte of the name, if it ends one, and how
/// far the next escape is read.
#[derive(Clone, Copy, Debug, PartialEq, Eq)]
struct Step {
    found: Option<u8>,
    escape: Escape,
}

/// The name that a text spells, None where it spells none. Each byte has one spelling, so
/// that no name is spelled twice.
pub fn unescaped(alloc: Global, text: &[u8]) -> Result<Option<Vec<u8>>, NoMemory>
    ensures spelled { IfOk result
        (λ name. Spells text.now (option_map (λ bytes. bytes.items) name)) }
    ensures read { IfOk result (λ name. option_map (λ bytes. bytes.items) name ≡ name_in text.now) }
{
    names_are_spelled_once();
    read(alloc, text)
}

/// What is read is spelled so, and what is spelled so is read.
pub fn names_are_spelled_once()
    ensures spelled { (text : List ℕ) → Spells text (name_in text) }
    ensures read { (name : List ℕ) → AreBytes name → name_in (escaped name) ≡ Some name }
{}

fn read(alloc: Global, text: &[u8]) -> Result<Option<Vec<u8>>, NoMemory>
    ensures { IfOk result (λ name. option_map (λ bytes. bytes.items) name ≡ name_in text.now) }
{
    let mut name = Vec::with_capacity(alloc, text.len())?;
    let mut escape = Escape::Outside;
    'bytes: for byte in text {
        let Some(step) = step_of(escape, *byte) else {
            return Ok(None);
        };
        add(&mut name, step.found)?;
        escape = step.escape;
    }
    match escape {
        Escape::Outside => Ok(Some(name)),
        _ => Ok(None),
    }
}

fn add(name: &mut Vec<u8>, found: Option<u8>) -> Result<(), NoMemory>
    ensures { OnOk result (name.new.items ≡ name.old.items ++ found_bytes found) }
{
    let Some(byte) = found else {
        return Ok(());
    };
    name.push(byte)?;
    Ok(())
}

fn step_of(escape: Escape, byte: u8) -> Option<Step>
    requires { IsHalf escape }
    ensures step { result ≡ step_of escape byte }
    ensures half { IfSome result (λ step. IsHalf step.escape) }
{
    match escape {
        Escape::Outside => {
            if byte == b'%' {
                return Some(Step {
                    found: None,
                    escape: Escape::Begun,
                });
            }
            if is_plain(byte) {
                Some(Step {
                    found: Some(byte),
                    escape: Escape::Outside,
                })
            } else {
                None
            }
        }
        Escape::Begun => {
            let high = hex_value(byte)?;
            Some(Step {
                found: None,
                escape: Escape::Halfway(high),
            })
        }
        Escape::Halfway(high) => {
            let low = hex_value(byte)?;
            let byte = high * 16 + low;
            if is_plain(byte) {
                None
            } else {
                Some(Step {
                    found: Some(byte),
                    escape: Escape::Outside,
                })
            }
        }
    }
}

fn hex_value(byte: u8) -> Option<u8>
    ensures value { result ≡ hex_value byte }
    ensures small { IfSome result (λ value. value < 16) }
{
    match byte {
        b'0'..=b'9' => Some(byte - b'0'),
        b'A'..=b'F' => Some(byte - 55),
        _ => None,
    }
}

/// Whether a name's spelling shows this byte as it is.
pub(crate) fn is_plain(byte: u8) -> bool
    ensures { result ≡ is_plain byte }
{
    33 <= byte && byte <= 126 && byte != b'%'
}
