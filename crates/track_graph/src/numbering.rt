//! The zone of each piece, numbered from 0 by their first pieces.

ghost use Rattle.std.specs.Prelude.{◌≡◌, ◌<◌, Some, length, map, IfOk, IsSome, None, ◌^◌};
ghost use Rattle.std.specs.List.{All};
ghost use Rattle.track_graph.specs.Zones.{AreZones};
ghost use Rattle.track_graph.specs.Neighbours.{AreInside, AreMutual, AreNamed, AreWithin};
ghost use Rattle.track_graph.specs.Marks.{AreNumbered};

use crate::flooding::flood;
use crate::neighbours::{Join, neighbours_of};
use no_memory::NoMemory;
use rail_types::List;
use std::alloc::Global;

/// How many zones there are, and the zone of each piece.
#[derive(Debug, Drop)]
pub(crate) struct Zones {
    pub count: u32,
    pub of_pieces: Vec<u32>,
}

/// The zones of pieces that are joined so.
pub(crate) fn zones_of(alloc: Global, pieces: u32, joins: &[Join]) -> Result<Zones, NoMemory>
    requires { AreWithin pieces joins.now }
    ensures { IfOk result (λ z. AreZones (AreNamed joins.now) pieces z.count z.of_pieces.items) }
{
    let rows = neighbours_of(alloc, pieces, joins)?;
    let mut marks = vec![in alloc; None; pieces as usize]?;
    let count = number_all(alloc, &rows, &mut marks)?;
    Ok(Zones {
        count,
        of_pieces: numbers_of(alloc, &marks)?,
    })
}

/// Marks all pieces, a zone at a time, and counts the zones.
fn number_all(alloc: Global, rows: &[List<u32>], marks: &mut [Option<u32>]) -> Result<u32, NoMemory>
    requires long { length rows.now ≡ length marks.old }
    requires few { length rows.now < 2 ^ 32 }
    requires inside { AreInside rows.now }
    requires both { AreMutual rows.now }
    requires unmarked { All (λ mark. mark ≡ None) marks.old }
    ensures { IfOk result (λ count. AreNumbered rows.now (length rows.now) count marks.new) }
{
    let mut count = 0;
    'starts: for start in 0..rows.len() as u32 {
        if marks[start as usize].is_none() {
            flood(alloc, rows, marks, start, count)?;
            count += 1;
        }
    }
    Ok(count)
}

fn numbers_of(alloc: Global, marks: &[Option<u32>]) -> Result<Vec<u32>, NoMemory>
    requires { All IsSome marks.now }
    ensures { IfOk result (λ numbers. map Some numbers.items ≡ marks.now) }
{
    let mut numbers = Vec::new(alloc);
    'marks: for mark in marks {
        let Some(number) = *mark else { unreachable!() };
        numbers.push(number)?;
    }
    Ok(numbers)
}
