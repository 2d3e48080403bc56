//! The detectors and the buffer stops along each track.

ghost use Rattle.std.specs.Prelude.{◌≡◌, ◌<◌, ◌^◌, length, IfOk};
ghost use Rattle.std.specs.List.{All};
ghost use Rattle.track_graph.specs.StandRows.{AreFront, AreListed};
ghost use Rattle.track_graph.specs.Stands.{AreOnRows};

use crate::rows::{fill_rows, no_rows};
use no_memory::NoMemory;
use rail_types::List;
use rail_types::infra_types::Placed;
use std::alloc::Global;

/// A detector or a buffer stop on its track, by its number among its kind: its
/// metres from the track's begin.
#[derive(Clone, Copy, Debug, PartialEq, Eq)]
pub struct Stand {
    pub track: u32,
    pub position: u64,
    pub number: u32,
}

/// For each track those that stand on it, from its begin to its end.
pub(crate) fn stands_by_track(
    alloc: Global,
    tracks: u32,
    placed: &[Placed],
) -> Result<Vec<List<Stand>>, NoMemory>
    requires few { length placed.now < 2 ^ 32 }
    requires within { All (λ one. one.track < tracks) placed.now }
    ensures { IfOk result (λ rows. AreOnRows placed.now tracks rows.items) }
{
    let listed = listed_stands(alloc, placed)?;
    let mut rows = no_rows(alloc, tracks)?;
    fill_rows(&mut rows, &listed)?;
    Ok(rows)
}

/// All of them by position; those at one position in the file's order.
fn listed_stands(alloc: Global, placed: &[Placed]) -> Result<Vec<Stand>, NoMemory>
    requires few { length placed.now < 2 ^ 32 }
    ensures { IfOk result (λ listed. AreListed placed.now listed.items) }
{
    let mut listed = stands_in_file_order(alloc, placed)?;
    listed.sort_by_key(|stand| stand.position)?;
    Ok(listed)
}

fn stands_in_file_order(alloc: Global, placed: &[Placed]) -> Result<Vec<Stand>, NoMemory>
    requires few { length placed.now < 2 ^ 32 }
    ensures { IfOk result (λ listed. AreFront placed.now (length placed.now) listed.items) }
{
    let mut listed = Vec::new(alloc);
    'placed: for number in 0..placed.len() as u32 {
        let one = &placed[number as usize];
        listed.push(Stand {
            track: one.track,
            position: one.position,
            number,
        })?;
    }
    Ok(listed)
}
