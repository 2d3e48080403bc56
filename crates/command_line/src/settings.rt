//! Options with their values, and the words that spell them.

ghost use Rattle.std.specs.Prelude.{◌≡◌, ◌≢◌, ◌<◌, ◌↔◌, ◌∷◌, ℕ, List, IfNone, IfOk, IfSome};
ghost use Rattle.std.specs.Prelude.{IsErrOf, IsTrue, length, map, string_bytes};
ghost use Rattle.command_line.specs.Spelling.{AreReadAs, Begins, dash, dashed, equals_sign};
ghost use Rattle.command_line.specs.Spelling.{IsCutAt, IsSetting, IsValue, Lacks};
ghost use Rattle.command_line.specs.Spelling.{Setting as setting, Spell, Word};

use crate::faults::WordsFault;
use std::alloc::Global;
use std::marker::Model;

/// An option and its value. Contracts see the texts of both.
#[derive(Debug, Drop)]
pub struct Setting<'a> {
    option: &'a str,
    value: &'a str,
}

impl<'a> Model for Setting<'a> {
    ghost use Rattle.command_line.specs.Spelling.{Setting as setting};

    ghost Value = { setting };

    ghost view = { λ a. record { option = a.option.now; value = a.value.now } };
}

impl<'a> Setting<'a> {
    /// The option, without its two dashes.
    pub fn option(&self) -> &'a str
        ensures { result.now ≡ self.now.option }
    {
        self.option
    }

    /// Its value.
    pub fn value(&self) -> &'a str
        ensures { result.now ≡ self.now.value }
    {
        self.value
    }
}

/// Reads words as options with values, `--option value` or `--option=value`. A value is not empty
/// and does not begin with `-`. Any other words are `NotUnderstood`.
pub fn read_settings<'a>(alloc: Global, words: &'a [String]) -> Result<Vec<Setting<'a>>, WordsFault>
    ensures understood { IfOk result
        (λ settings. AreReadAs settings.items (map string_bytes words.now)) }
    ensures refused { IsErrOf result WordsFault.NotUnderstood
        → (settings : List setting) → Spell settings (map string_bytes words.now) → ⊥ }
{
    let mut settings = Vec::new(alloc);
    let mut rest = words;
    while !rest.is_empty() {
        let Some((setting, behind)) = first_setting(rest) else {
            return Err(WordsFault::NotUnderstood);
        };
        let Ok(()) = settings.push(setting) else {
            return Err(WordsFault::Memory);
        };
        rest = behind;
    }
    Ok(settings)
}

// The option that words begin with, and the words behind it, where its value has the form of one.
fn first_setting<'a>(words: &'a [String]) -> Option<(Setting<'a>, &'a [String])>
    ensures first { IfSome result
        (λ it. Begins it.0 (map string_bytes words.now) (map string_bytes it.1.now)) }
    ensures formed { IfSome result (λ it. IsSetting it.0) }
    ensures shorter { IfSome result (λ it. length it.1.now < length words.now) }
    ensures none { IfNone result ((s : setting) (rest : List Word) → IsSetting s
        → Begins s (map string_bytes words.now) rest → ⊥) }
{
    let Some((setting, behind)) = first_option(words) else {
        return None;
    };
    if is_value(setting.value) {
        Some((setting, behind))
    } else {
        None
    }
}

// The option that words begin with, whatever its value, and the words behind it.
fn first_option<'a>(words: &'a [String]) -> Option<(Setting<'a>, &'a [String])>
    ensures first { IfSome result
        (λ it. Begins it.0 (map string_bytes words.now) (map string_bytes it.1.now)) }
    ensures formed { IfSome result (λ it. Lacks equals_sign it.0.option) }
    ensures shorter { IfSome result (λ it. length it.1.now < length words.now) }
    ensures none { IfNone result ((s : setting) (rest : List Word) → Lacks equals_sign s.option
        → Begins s (map string_bytes words.now) rest → ⊥) }
{
    let (word, behind) = words.split_first()?;
    let text = undashed(word.as_str())?;
    match cut_at_equals(text) {
        Some((option, value)) => Some((Setting { option, value }, behind)),
        None => {
            let Some((value, behind)) = behind.split_first() else {
                return None;
            };
            Some((
                Setting {
                    option: text,
                    value: value.as_str(),
                },
                behind,
            ))
        }
    }
}

// What stands behind two dashes.
fn undashed(word: &str) -> Option<&str>
    ensures some { IfSome result (λ text. word.now ≡ dashed text.now) }
    ensures none { IfNone result ((text : List ℕ) → word.now ≢ dashed text) }
{
    behind_dash(behind_dash(word)?)
}

fn behind_dash(word: &str) -> Option<&str>
    ensures some { IfSome result (λ text. word.now ≡ dash ∷ text.now) }
    ensures none { IfNone result ((text : List ℕ) → word.now ≢ dash ∷ text) }
{
    match word.strip_prefix('-') {
        None => None,
        Some(text) => Some(text),
    }
}

/// What stands before the first `=` of a text, and what stands behind it:
/// None where the text has none.
pub fn cut_at_equals(text: &str) -> Option<(&str, &str)>
    ensures found { IfSome result (λ parts. IsCutAt equals_sign text.now parts.0.now parts.1.now) }
    ensures absent { IfNone result (Lacks equals_sign text.now) }
{
    match text.split_once('=') {
        None => None,
        Some(parts) => Some(parts),
    }
}

// Whether a text has the form of a value.
fn is_value(text: &str) -> bool
    ensures { IsTrue result ↔ IsValue text.now }
{
    match text.as_bytes().first() {
        None => false,
        Some(first) => *first != b'-',
    }
}
