//! Marks a piece with its zone's number, and all pieces that joins lead to.

ghost use Rattle.std.specs.Prelude.{◌≡◌, ℕ, ◌<◌, [], length, slice_index_or, None, OnOk};
ghost use Rattle.std.specs.List.{All};
ghost use Rattle.track_graph.specs.Neighbours.{IsNextTo, AreMutual, AreInside};
ghost use Rattle.track_graph.specs.Marks.{IsClosed, AreMarked, IsFlooded};

use no_memory::NoMemory;
use rail_types::List;
use std::alloc::Global;

/// Gives the zone to the start and to all pieces that joins lead to from there.
pub(crate) fn flood(
    alloc: Global,
    rows: &[List<u32>],
    marks: &mut [Option<u32>],
    start: u32,
    zone: u32,
) -> Result<(), NoMemory>
    requires long { length rows.now ≡ length marks.old }
    requires inside { AreInside rows.now }
    requires both { AreMutual rows.now }
    requires closed { IsClosed rows.now marks.old [] }
    requires within { start < length marks.old }
    requires unmarked { slice_index_or marks.old start None ≡ None }
    ensures ok { OnOk result (IsFlooded rows.now start zone marks.old marks.new) }
{
    let mut waiting = Vec::new(alloc);
    waiting.push(start)?;
    marks[start as usize] = Some(zone);
    'waits: while let Some(piece) = waiting.pop() {
        let row = &rows[piece as usize];
        mark_all(row.as_slice(), marks, &mut waiting, zone)?;
    }
    Ok(())
}

/// Marks those pieces that have no mark, and lets them wait.
fn mark_all(
    pieces: &[u32],
    marks: &mut [Option<u32>],
    waiting: &mut Vec<u32>,
    zone: u32,
) -> Result<(), NoMemory>
    requires { All (λ piece. piece < length marks.old) pieces.now }
    ensures ok { OnOk result
        (AreMarked pieces.now zone marks.old marks.new waiting.old.items waiting.new.items) }
{
    'row: for piece in pieces {
        let index = *piece as usize;
        if marks[index].is_none() {
            waiting.push(*piece)?;
            marks[index] = Some(zone);
        }
    }
    Ok(())
}
