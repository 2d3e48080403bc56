//! The values under an option.

ghost use Rattle.std.specs.Prelude.{◌≡◌, ◌∷◌, [], List, ℕ, Option, IfNone, IfOk, IfSome, IsErrOf};
ghost use Rattle.std.specs.Prelude.{map, option_map};
ghost use Rattle.std.specs.List.{list_any};
ghost use Rattle.std.specs.Str.{bytes_eq};
ghost use Rattle.command_line.specs.Spelling.{are_among, at_most_one, is_among as among};
ghost use Rattle.command_line.specs.Spelling.{values_under};

use crate::faults::WordsFault;
use crate::settings::Setting;
use no_memory::NoMemory;
use std::alloc::Global;

/// The values under an option, in the words' order.
pub fn values_of<'a>(
    alloc: Global,
    option: &str,
    settings: &[Setting<'a>],
) -> Result<Vec<&'a str>, NoMemory>
    ensures { IfOk result (λ values. map (λ value. value.now) values.items
        ≡ values_under option.now settings.now) }
{
    let mut values = Vec::new(alloc);
    for setting in settings {
        if setting.option() == option {
            values.push(setting.value())?;
        }
    }
    Ok(values)
}

/// The value under an option that is given once.
pub fn single_value<'a>(
    alloc: Global,
    option: &str,
    settings: &[Setting<'a>],
) -> Result<&'a str, WordsFault>
    ensures once { IfOk result (λ value. values_under option.now settings.now ≡ value.now ∷ []) }
    ensures other { IsErrOf result WordsFault.NotUnderstood
        → (value : List ℕ) → values_under option.now settings.now ≡ value ∷ [] → ⊥ }
{
    let values = values_of(alloc, option, settings)?;
    match only_value(values.as_slice()) {
        Some(value) => Ok(value),
        None => Err(WordsFault::NotUnderstood),
    }
}

/// The value under an option that is given at most once: None where it is not given.
pub fn optional_value<'a>(
    alloc: Global,
    option: &str,
    settings: &[Setting<'a>],
) -> Result<Option<&'a str>, WordsFault>
    ensures once { IfOk result (λ value. values_under option.now settings.now
        ≡ at_most_one (option_map (λ v. v.now) value)) }
    ensures other { IsErrOf result WordsFault.NotUnderstood
        → (value : Option (List ℕ)) → values_under option.now settings.now ≡ at_most_one value
        → ⊥ }
{
    let values = values_of(alloc, option, settings)?;
    match values.as_slice() {
        [] => Ok(None),
        [value] => Ok(Some(value)),
        _ => Err(WordsFault::NotUnderstood),
    }
}

// The value where there is one alone.
fn only_value<'a>(values: &[&'a str]) -> Option<&'a str>
    ensures one { IfSome result (λ value. map (λ v. v.now) values.now ≡ value.now ∷ []) }
    ensures other { IfNone result ((value : List ℕ) → map (λ v. v.now) values.now ≡ value ∷ []
        → ⊥) }
{
    match values {
        [value] => Some(value),
        _ => None,
    }
}

/// Whether each option is one of these.
pub fn has_only(options: &[&str], settings: &[Setting<'_>]) -> bool
    ensures { result ≡ are_among (map (λ option. option.now) options.now) settings.now }
{
    settings
        .iter()
        .all(|setting| is_among(options, setting.option()))
}

fn is_among(options: &[&str], option: &str) -> bool
    ensures { result ≡ among (map (λ other. other.now) options.now) option.now }
{
    has_text(options, option)
}

fn has_text(texts: &[&str], text: &str) -> bool
    ensures { result ≡ list_any (λ other. bytes_eq other.now text.now) texts.now }
{
    texts.iter().any(|other| *other == text)
}
