//! The texts of replies, by the places of their lines.

ghost use Rattle.std.specs.Prelude.{◌≡◌, ◌<◌, [], All, IfOk, IfSome, OnOk, length, replicate};
ghost use Rattle.batch_command.specs.InOrder.{all_answers, AreInOrder, AreWhole};
ghost use Rattle.batch_command.specs.Tables.{filled, texts_by};
ghost use Rattle.served_clients.specs.lines.Replies.{reply_text as text_of_reply};

use no_memory::NoMemory;
use rail_types::List;
use served_clients::bytes::Buffer;
use served_clients::lines::reply_texts::{Reply, reply_text};
use std::alloc::Global;

/// A place for each of so many texts, each of which is empty.
pub fn empty_texts(alloc: Global, count: usize) -> Result<Vec<List<u8>>, NoMemory>
    ensures { IfOk result (λ texts. texts.items ≡ replicate count []) }
{
    let mut texts = Vec::new(alloc);
    for _made in 0..count {
        texts.push(List::new(alloc))?;
    }
    Ok(texts)
}

/// The texts of the answers to all lines of a list, in the order of the list: first these, and then
/// in parts. Each takes the place of a text that is there. None where memory is wanted for a text.
pub fn texts_in_order(
    alloc: Global,
    mut texts: Vec<List<u8>>,
    first: &[(u32, Reply)],
    parts: &[List<(u32, Reply)>],
) -> Option<Vec<List<u8>>>
    requires whole { AreWhole (length texts.items) (all_answers first.now parts.now) }
    ensures { IfSome result (λ all.
        AreInOrder (length texts.items) (all_answers first.now parts.now) all.items) }
{
    let Ok(()) = put_all(alloc, texts.as_mut_slice(), first, parts) else {
        return None;
    };
    Some(texts)
}

// Puts the texts of all replies to their places.
fn put_all(
    alloc: Global,
    texts: &mut [List<u8>],
    first: &[(u32, Reply)],
    parts: &[List<(u32, Reply)>],
) -> Result<(), NoMemory>
    requires { All (λ a. a.0 < length texts.old) (all_answers first.now parts.now) }
    ensures { OnOk result (texts.new
        ≡ filled texts.old (texts_by (all_answers first.now parts.now))) }
{
    put_texts(alloc, texts, first)?;
    for part in parts {
        put_texts(alloc, texts, part.as_slice())?;
    }
    Ok(())
}

// Puts the texts of replies to their places.
fn put_texts(
    alloc: Global,
    texts: &mut [List<u8>],
    answers: &[(u32, Reply)],
) -> Result<(), NoMemory>
    requires { All (λ a. a.0 < length texts.old) answers.now }
    ensures { OnOk result (texts.new ≡ filled texts.old (texts_by answers.now)) }
{
    for (at, reply) in answers {
        let text = text_of(alloc, reply)?;
        texts[*at as usize] = text;
    }
    Ok(())
}

fn text_of(alloc: Global, reply: &Reply) -> Result<List<u8>, NoMemory>
    ensures { IfOk result (λ text. text ≡ text_of_reply reply.now) }
{
    let mut text = Buffer::new(alloc);
    reply_text(reply, &mut text)?;
    Ok(List::from_vec(text.into_vec()))
}
