//! What a value's first token tells of it.

ghost use Rattle.std.specs.Prelude.{◌≡◌, is_some, option_map, Err, Some, None, IfOk};
ghost use Rattle.json.specs.Reads.{token_of};
ghost use Rattle.serde_json.specs.Data.{number, string};
ghost use Rattle.serde_json.specs.Read.{number_of};
ghost use Rattle.serde_json.specs.View.{view};
ghost use Rattle.json_fields.specs.declared.texts.Unread.TheVariants.{NotJson};
ghost use Rattle.infra_fields.specs.Tokens.{opens_array, opens_object, lone_value};

use crate::file_values::number_tokens::number_of;
use json::Token;
use json_fields::Unread;
use serde_json::Value;
use std::alloc::Global;

/// Whether an array begins with this token.
pub(crate) fn opens_array(token: &Token<'_>) -> bool
    ensures { result ≡ opens_array (token_of token.now) }
{
    matches!(token, Token::BeginArray)
}

/// Whether an object begins with this token.
pub(crate) fn opens_object(token: &Token<'_>) -> bool
    ensures { result ≡ opens_object (token_of token.now) }
{
    matches!(token, Token::BeginObject)
}

/// The value that a token alone is.
pub(crate) fn lone_value(alloc: Global, token: Token<'_>) -> Result<Value, Unread>
    ensures ok { IfOk result (λ value. lone_value (token_of token.entry) ≡ Some (view value)) }
    ensures err { result ≡ Err NotJson → lone_value (token_of token.entry) ≡ None }
{
    match token {
        Token::String(text) => string_value(alloc, text),
        Token::Number(text) => number_value(text),
        Token::Bool(answer) => Ok(Value::from(answer)),
        Token::Null => Ok(Value::from(())),
        Token::BeginObject
        | Token::EndObject
        | Token::BeginArray
        | Token::EndArray
        | Token::Key(_)
        | Token::Bad => Err(Unread::NotJson),
    }
}

fn string_value(alloc: Global, text: &str) -> Result<Value, Unread>
    ensures ok { IfOk result (λ value. view value ≡ string text.now) }
    ensures err { result ≡ Err NotJson → ⊥ }
{
    let Ok(value) = Value::try_from_str(alloc, text) else {
        return Err(Unread::Memory);
    };
    Ok(value)
}

fn number_value(text: &str) -> Result<Value, Unread>
    ensures ok { IfOk result (λ value. option_map number (number_of text.now) ≡ Some (view value)) }
    ensures err { result ≡ Err NotJson → option_map number (number_of text.now) ≡ None }
{
    let Some(number) = number_of(text) else {
        return Err(Unread::NotJson);
    };
    Ok(Value::from(number))
}

/// Whether a token alone is a value.
pub(crate) fn is_lone_value(token: Token<'_>) -> bool
    ensures { result ≡ is_some (lone_value (token_of token.entry)) }
{
    match token {
        Token::String(_) | Token::Bool(_) | Token::Null => true,
        Token::Number(text) => is_number_value(text),
        Token::BeginObject
        | Token::EndObject
        | Token::BeginArray
        | Token::EndArray
        | Token::Key(_)
        | Token::Bad => false,
    }
}

fn is_number_value(text: &str) -> bool
    ensures { result ≡ is_some (option_map number (number_of text.now)) }
{
    number_of(text).is_some()
}
