//! Hands the detectors out to their tracks.

ghost use Rattle.std.specs.Prelude.{◌≡◌, ◌<◌, [], length, IfOk, OnOk};
ghost use Rattle.std.specs.List.{All};
ghost use Rattle.track_graph.specs.StandRows.{ShowStands, with_stand};

use crate::stands::Stand;
use no_memory::NoMemory;
use rail_types::List;
use std::alloc::Global;

pub(crate) fn no_rows(alloc: Global, tracks: u32) -> Result<Vec<List<Stand>>, NoMemory>
    ensures { IfOk result (λ rows. ShowStands tracks [] rows.items) }
{
    let mut rows = Vec::new(alloc);
    'tracks: for _ in 0..tracks {
        rows.push(List::new(alloc))?;
    }
    Ok(rows)
}

/// Puts each detector behind the others of its track.
pub(crate) fn fill_rows(rows: &mut [List<Stand>], listed: &[Stand]) -> Result<(), NoMemory>
    requires within { All (λ stand. stand.track < length rows.old) listed.now }
    requires none { ShowStands (length rows.old) [] rows.old }
    ensures ok { OnOk result (ShowStands (length rows.old) listed.now rows.new) }
{
    'fills: for stand in listed {
        add_stand(rows, stand)?;
    }
    Ok(())
}

fn add_stand(rows: &mut [List<Stand>], stand: &Stand) -> Result<(), NoMemory>
    requires { stand.now.track < length rows.old }
    ensures ok { OnOk result (rows.new ≡ with_stand rows.old stand.now) }
{
    let row = &mut rows[stand.track as usize];
    row.push(*stand)?;
    Ok(())
}
