//! Cuts tracks into pieces.

ghost use Rattle.std.specs.Prelude.{◌≡◌, ◌+◌, ◌<◌, ◌≤◌, ◌^◌, length, map, IfOk};
ghost use Rattle.std.specs.List.{sum_by};
ghost use Rattle.track_graph.specs.Pieces.{AreCuts, ArePieceRows, pieces_from};
ghost use Rattle.track_graph.specs.PieceRows.{AreFirsts};

use crate::stands::Stand;
use no_memory::NoMemory;
use rail_types::List;
use rail_types::infra_types::Track;
use std::alloc::Global;

/// A piece of track between two neighbours among the positions of its detectors and its ends: its
/// metres from the track's begin.
#[derive(Clone, Copy, Debug, PartialEq, Eq)]
pub struct Piece {
    pub track: u32,
    pub begin: u64,
    pub end: u64,
}

/// For each track its pieces, from its begin to its end.
pub(crate) fn pieces_by_track(
    alloc: Global,
    tracks: &[Track],
    stands: &[List<Stand>],
) -> Result<Vec<List<Piece>>, NoMemory>
    requires few { length tracks.now < 2 ^ 32 }
    requires long { length stands.now ≡ length tracks.now }
    ensures { IfOk result (λ r. ArePieceRows tracks.now stands.now (length tracks.now) r.items) }
{
    let mut rows = Vec::new(alloc);
    'tracks: for number in 0..tracks.len() as u32 {
        let length_m = u64::from(tracks[number as usize].length);
        let row = &stands[number as usize];
        let cuts = cuts_at(alloc, row.as_slice())?;
        rows.push(pieces_between(alloc, number, &cuts, length_m)?)?;
    }
    Ok(rows)
}

/// The positions of detectors, each once, ascending.
fn cuts_at(alloc: Global, stands: &[Stand]) -> Result<Vec<u64>, NoMemory>
    ensures cuts { IfOk result (λ cuts. AreCuts stands.now cuts.items) }
    ensures short { IfOk result (λ cuts. length cuts.items ≤ length stands.now) }
{
    let mut cuts = positions_of(alloc, stands)?;
    cuts.sort_unstable();
    cuts.dedup();
    Ok(cuts)
}

fn positions_of(alloc: Global, stands: &[Stand]) -> Result<Vec<u64>, NoMemory>
    ensures { IfOk result (λ ps. ps.items ≡ map (λ stand. stand.position) stands.now) }
{
    let mut positions = Vec::new(alloc);
    'stands: for stand in stands {
        positions.push(stand.position)?;
    }
    Ok(positions)
}

/// The pieces of a track of so many metres that is cut at these positions.
fn pieces_between(
    alloc: Global,
    track: u32,
    cuts: &[u64],
    length_m: u64,
) -> Result<List<Piece>, NoMemory>
    ensures pieces { IfOk result (λ pieces. pieces ≡ pieces_from track 0 cuts.now length_m) }
    ensures count { IfOk result (λ pieces. length pieces ≡ length cuts.now + 1) }
{
    let mut pieces = List::new(alloc);
    let mut begin = 0;
    'cuts: for cut in cuts {
        pieces.push(Piece {
            track,
            begin,
            end: *cut,
        })?;
        begin = *cut;
    }
    pieces.push(Piece {
        track,
        begin,
        end: length_m,
    })?;
    Ok(pieces)
}

/// For each track, and behind them, how many pieces stand before.
pub(crate) fn firsts_of(alloc: Global, rows: &[List<Piece>]) -> Result<Vec<u32>, NoMemory>
    requires few { sum_by length rows.now < 2 ^ 32 }
    ensures { IfOk result (λ firsts. AreFirsts rows.now firsts.items) }
{
    let mut firsts = Vec::new(alloc);
    let mut count = 0;
    firsts.push(count)?;
    'rows: for row in rows {
        count += row.len() as u32;
        firsts.push(count)?;
    }
    Ok(firsts)
}
