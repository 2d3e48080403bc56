//! Events of a world, and what its clients know.

use crate::entries::entry_of;
use crate::words::{first_word, no_memory, not_understood, small_of};
use grant_journal::Stage;
use plan_core::{Event, Note, World};
use std::alloc::Global;
use std::io;

/// Takes an event, and tells whether it may be, and how many entries
/// there are and are settled then.
pub fn step(alloc: Global, world: &mut World, line: &str) -> io::Result<String> {
    let may = takes(alloc, world, line)?;
    let word = if may { "may be" } else { "may not be" };
    let front = world.history().front();
    let settled = world.settled();
    Ok(format!(in alloc; "{word}, entries {front}, settled {settled}")?)
}

// Takes an event, and tells whether it may be.
fn takes(alloc: Global, world: &mut World, line: &str) -> io::Result<bool> {
    let event = event_of(alloc, line)?;
    world.step(&event).map_err(no_memory)
}

fn event_of(alloc: Global, line: &str) -> io::Result<Event> {
    let (word, rest) = first_word(line);
    match (word, rest) {
        ("settle", "done") => Ok(Event::Settle { done: true }),
        ("settle", "fails") => Ok(Event::Settle { done: false }),
        ("crash", "keeps") => Ok(Event::Crash { keeps_last: true }),
        ("crash", "loses") => Ok(Event::Crash { keeps_last: false }),
        ("open", _) => Ok(Event::Open),
        _ => event_of_client(alloc, word, rest),
    }
}

// An event of a client, whose number stands behind the word.
fn event_of_client(alloc: Global, word: &str, rest: &str) -> io::Result<Event> {
    let (client, rest) = first_word(rest);
    let client = small_of(client)?;
    match word {
        "turn" => Ok(Event::Turn { client }),
        "seek" => Ok(Event::Seek { client }),
        "commit" => {
            let entry = entry_of(alloc, rest)?;
            Ok(Event::Commit { client, entry })
        }
        "free" => {
            let entry = entry_of(alloc, rest)?;
            Ok(Event::Free { client, entry })
        }
        "record" => fault_of(alloc, client, rest, Stage::Record),
        "gate" => fault_of(alloc, client, rest, Stage::Gate),
        _ => Err(not_understood()),
    }
}

fn fault_of(alloc: Global, client: u32, line: &str, stage: Stage) -> io::Result<Event> {
    let entry = entry_of(alloc, line)?;
    Ok(Event::Fault {
        client,
        entry,
        stage,
    })
}

/// What a client knows: its front, the front that it searched at, and its notes.
pub fn known(alloc: Global, world: &World, line: &str) -> io::Result<String> {
    let client = small_of(line)?;
    let Some(front) = world.front(client) else {
        return Err(not_understood());
    };
    let mut text = format!(in alloc; "front {front}")?;
    if let Some(Some(searched)) = world.searched(client) {
        write!(text, ", searched {searched}")?;
    }
    let Some(log) = world.log(client) else {
        return Err(not_understood());
    };
    push_notes(&mut text, log)?;
    Ok(text)
}

fn push_notes(text: &mut String, log: &[Note]) -> io::Result<()> {
    for note in log {
        push_note(text, note)?;
    }
    Ok(())
}

fn push_note(text: &mut String, note: &Note) -> io::Result<()> {
    write!(text, ", noted {}", note.point)?;
    if let Some(entry) = note.entry {
        write!(text, " with {entry}")?;
    }
    if note.lost {
        text.push_str(" lost")?;
    }
    Ok(())
}
