//! The words of lines.

ghost use Rattle.std.specs.Prelude.{◌≡◌, bytes_eq};
ghost use Rattle.client_lines.specs.Forms.{a_word, one};
ghost use Rattle.client_lines.specs.Lines.{first_word, word_of};
ghost use Rattle.client_lines.specs.Reading.{Gives, read};

use crate::asks::Word;
use crate::cuts::Fields;
use crate::faults::LineFault;

fn is_word(field: &[u8], word: &[u8]) -> bool
    ensures { result ≡ bytes_eq field.now word.now }
{
    field == word
}

fn word_of(field: &[u8]) -> Option<Word>
    ensures { result ≡ word_of field.now }
{
    if is_word(field, b"hold") {
        Some(Word::Hold)
    } else if is_word(field, b"holds") {
        Some(Word::Holds)
    } else if is_word(field, b"pin") {
        Some(Word::Pin)
    } else if is_word(field, b"ask") {
        Some(Word::Ask)
    } else if is_word(field, b"free") {
        Some(Word::Free)
    } else if is_word(field, b"show") {
        Some(Word::Show)
    } else if is_word(field, b"front") {
        Some(Word::Front)
    } else {
        None
    }
}

fn first_word(field: &[u8]) -> Option<Option<Word>>
    ensures { result ≡ first_word field.now }
{
    if is_word(field, b"after") {
        return Some(None);
    }
    Some(Some(word_of(field)?))
}

pub(crate) fn read_word(fields: &mut Fields<'_>) -> Result<Word, LineFault>
    ensures { Gives fields.new result (read (one (a_word word_of)) fields.old) }
{
    let at = fields.at();
    let Some(field) = fields.next() else {
        return Err(LineFault::Bad { field: at });
    };
    let Some(word) = word_of(field) else {
        return Err(LineFault::Bad { field: at });
    };
    Ok(word)
}

pub(crate) fn read_first_word(fields: &mut Fields<'_>) -> Result<Option<Word>, LineFault>
    ensures { Gives fields.new result (read (one (a_word first_word)) fields.old) }
{
    let at = fields.at();
    let Some(field) = fields.next() else {
        return Err(LineFault::Bad { field: at });
    };
    let Some(word) = first_word(field) else {
        return Err(LineFault::Bad { field: at });
    };
    Ok(word)
}
