// What a crash leaves of a disk in memory: its changes are made again, and those
// behind the last sync are torn.

ghost use Rattle.std.specs.Prelude.{◌≡◌, ◌∷◌, ◌↔◌, ◌⊎◌, ◌+◌, ◌-◌, ◌%◌, ◌<◌, ◌≤◌, ◌^◌, [], ℕ, List};
ghost use Rattle.std.specs.Prelude.{Some, drop, length, slice_get, IfOk, IsTrue, OnOk};
ghost use Rattle.outside_io.specs.Disks.{Torn, write_over};
ghost use Rattle.outside_io.specs.Logged.{IsMadeAgain, NoneSynced, bytes_in, changes_behind};
ghost use Rattle.outside_io.specs.StoredDisks.{contents_after, contents_synced, IsImageAfter};
ghost use Rattle.outside_io.specs.declared.logged.Logged.TheVariants.{Synced};

use crate::logged::Logged;
use crate::overwrites::overwrite;
use no_memory::NoMemory;
use std::alloc::Global;

// Writes a piece, and makes the room for it.
fn write_with_room(bytes: &mut Vec<u8>, at: u64, piece: &[u8]) -> Result<(), NoMemory>
    ensures { OnOk result (bytes.new.items ≡ write_over at piece.now bytes.old.items) }
{
    let gap = (at as usize).saturating_sub(bytes.len());
    let Some(more) = gap.checked_add(piece.len()) else {
        return Err(NoMemory);
    };
    bytes.reserve(more)?;
    overwrite(bytes, at as usize, piece);
    Ok(())
}

// Which bytes of a piece of this length arrive, and whether as others.
#[derive(Clone, Copy, Debug)]
struct Arrival {
    from: usize,
    to: usize,
    is_foreign: bool,
}

// A piece that was not synced: how many bytes it has, how many of them lie before the end that was
// synced last, and how many pieces stand before it that were not synced either.
#[derive(Clone, Copy, Debug)]
struct Unsynced {
    count: usize,
    inside: usize,
    before: usize,
}

fn what_arrives(choice: u64, piece: Unsynced) -> Arrival
    ensures order { result.from ≤ result.to }
    ensures within { result.to ≤ piece.count }
    ensures nothing { choice % 8 ≡ 0 → result.from ≡ result.to }
{
    let Unsynced {
        count,
        inside,
        before,
    } = piece;
    let half = count / 2;
    let is_first = before % 2 == 0;
    let (from, to) = match choice % 8 {
        0 => (0, 0),
        2 => (0, half),
        3 => (half, count),
        5 => (0, inside.min(count)),
        6 if !is_first => (0, 0),
        7 if is_first => (0, half),
        _ => (0, count),
    };
    Arrival {
        from,
        to,
        is_foreign: choice % 8 == 4,
    }
}

fn part_that_arrives(alloc: Global, piece: &[u8], part: Arrival) -> Result<Vec<u8>, NoMemory>
    requires order { part.from ≤ part.to }
    requires within { part.to ≤ length piece.now }
    ensures { IfOk result (λ some. part.from + length some.items ≡ part.to) }
{
    let mut some = Vec::from_slice(alloc, &piece[part.from..part.to])?;
    if part.is_foreign && !some.is_empty() {
        some[0] = 255 - some[0];
    }
    Ok(some)
}

// How a crash tears a piece: the caller's choice, where the file ended when it was synced last, and
// how many pieces stand before this one that were not synced either.
#[derive(Clone, Copy, Debug)]
struct Tear {
    choice: u64,
    old_end: usize,
    before: usize,
}

// Writes a piece as a crash may tear it.
fn write_torn(
    alloc: Global,
    bytes: &mut Vec<u8>,
    at: u64,
    piece: &[u8],
    tear: Tear,
) -> Result<(), NoMemory>
    ensures torn { OnOk result (Torn at (length piece.now) bytes.old.items bytes.new.items) }
    ensures nothing { tear.choice % 8 ≡ 0 → bytes.new.items ≡ bytes.old.items }
{
    let unsynced = Unsynced {
        count: piece.len(),
        inside: tear.old_end.saturating_sub(at as usize),
        before: tear.before,
    };
    let part = what_arrives(tear.choice, unsynced);
    let Some(place) = at.checked_add(part.from as u64) else {
        return Ok(());
    };
    let some = part_that_arrives(alloc, piece, part)?;
    if some.is_empty() {
        return Ok(());
    }
    write_with_room(bytes, place, &some)?;
    Ok(())
}

// How many changes stand up to the last sync.
fn durable_changes(log: &[Logged]) -> usize
    ensures within { result ≤ length log.now }
    ensures behind { NoneSynced (drop result log.now) }
    ensures last { 0 < result → slice_get log.now (result - 1) ≡ Some Synced }
{
    let mut durable = log.len();
    while durable > 0 {
        if let Logged::Synced = log[durable - 1] {
            return durable;
        }
        durable -= 1;
    }
    durable
}

fn written_bytes(change: Logged) -> usize
    ensures { result ≡ bytes_in (change ∷ []) }
{
    match change {
        Logged::Wrote { at: _, count } | Logged::FailedAt { at: _, count } => count,
        Logged::Synced => 0,
    }
}

// Whether a change comes whole: where it is durable, and by choice 1.
fn comes_whole(k: usize, durable: usize, choice: u64) -> bool
    ensures { IsTrue result ↔ ((k < durable) ⊎ (choice % 8 ≡ 1)) }
{
    k < durable || choice % 8 == 1
}

// Makes a change again, as a read saw it where it comes whole.
fn make_again(
    alloc: Global,
    bytes: &mut Vec<u8>,
    change: Logged,
    piece: &[u8],
    is_whole: bool,
    tear: Tear,
) -> Result<(), NoMemory>
    ensures { OnOk result
        (IsMadeAgain tear.choice change piece.now is_whole bytes.old.items bytes.new.items) }
{
    match change {
        Logged::Wrote { at, count: _ } if is_whole => write_with_room(bytes, at, piece),
        Logged::Wrote { at, count: _ } => write_torn(alloc, bytes, at, piece, tear),
        Logged::FailedAt { at: _, count: _ } if is_whole => Ok(()),
        Logged::FailedAt { at, count: _ } => write_torn(alloc, bytes, at, piece, tear),
        Logged::Synced => Ok(()),
    }
}

// One of the images that a crash after these changes may leave.
pub(crate) fn replay(
    alloc: Global,
    first: &[u8],
    log: &[Logged],
    pieces: &[u8],
    choice: u64,
) -> Result<Vec<u8>, NoMemory>
    requires { bytes_in log.now ≡ length pieces.now }
    ensures image { IfOk result
        (λ image. IsImageAfter first.now (changes_behind [] log.now pieces.now) image.items) }
    ensures last_sync { choice % 8 ≡ 0 → IfOk result
        (λ image. image.items ≡ contents_synced first.now (changes_behind [] log.now pieces.now)) }
    ensures as_read { choice % 8 ≡ 1 → IfOk result
        (λ image. image.items ≡ contents_after first.now (changes_behind [] log.now pieces.now)) }
{
    let durable = durable_changes(log);
    let mut image = Vec::from_slice(alloc, first)?;
    let mut old_end = image.len();
    let mut rest = pieces;
    for k in 0..log.len() {
        let change = log[k];
        let (piece, behind) = rest.split_at(written_bytes(change));
        rest = behind;
        let tear = Tear {
            choice,
            old_end,
            before: k.saturating_sub(durable),
        };
        let is_whole = comes_whole(k, durable, choice);
        make_again(alloc, &mut image, change, piece, is_whole, tear)?;
        if k < durable {
            old_end = image.len();
        }
    }
    Ok(image)
}
