//! The pieces of zones, and their names.

ghost use Rattle.std.specs.Prelude.{◌≡◌, ℕ, ◌++◌, ◌+◌, ◌<◌, ◌≤◌, ◌^◌, length, map, OnOk, IfOk};
ghost use Rattle.std.specs.List.{All, range_with_len};
ghost use Rattle.rail_types.specs.Infras.{IsInfra};
ghost use Rattle.track_graph.specs.Layouts.{IsLayoutOf};
ghost use Rattle.track_graph.specs.Pieces.{pieces_of};
ghost use Rattle.signal_blocks.specs.Inside.{IsOwn, IsZoned};
ghost use Rattle.rail_types.specs.Named.{IsId};
ghost use Rattle.signal_blocks.specs.Names.{track_piece, zone_name, zone_names, zoned_on};
ghost use Rattle.signal_blocks.specs.Names.{zoned_pieces};

use crate::block_cuts::{ByRow, InRow};
use no_memory::NoMemory;
use rail_types::List;
use rail_types::infra_types::{Infra, Track};
use rail_types::named_network::{TrackPiece, ZoneName};
use std::alloc::Global;
use track_graph::{Graph, Piece};

/// A piece of a track, and its zone.
#[derive(Clone, Copy)]
pub struct ZonedPiece {
    pub zone: u32,
    pub piece: Piece,
}

impl InRow for ZonedPiece {
    ghost row_number = { λ one. one.zone };

    fn row_number(&self) -> u32 {
        self.zone
    }
}

/// The pieces of all tracks with their zones, by track, then from its begin to its end.
#[tactic(auto, using(crate::proofs::Growing::tracks_grow))]
fn zoned_pieces(alloc: Global, graph: &Graph, tracks: u32) -> Result<List<ZonedPiece>, NoMemory>
    requires tracks { tracks ≤ length graph.now.infra.tracks }
    requires few { (track : ℕ) → length (pieces_of graph.now.pieces track) < 2 ^ 32 }
    requires own { (track : ℕ) → track < length graph.now.infra.tracks
        → All (IsOwn (length graph.now.infra.tracks)) (pieces_of graph.now.pieces track) }
    ensures pieces { IfOk result (λ pieces. pieces ≡ zoned_pieces graph.now tracks) }
    ensures zoned { IfOk result
        (All (IsZoned (length graph.now.infra.tracks) graph.now.count)) }
{
    let mut pieces = List::new(alloc);
    'tracks: for track in 0..tracks {
        add_zoned(graph, track, &mut pieces)?;
    }
    Ok(pieces)
}

/// Adds the pieces of a track with their zones.
fn add_zoned(graph: &Graph, track: u32, to: &mut List<ZonedPiece>) -> Result<(), NoMemory>
    requires track { track < length graph.now.infra.tracks }
    requires few { length (pieces_of graph.now.pieces track) < 2 ^ 32 }
    requires own { All (IsOwn (length graph.now.infra.tracks)) (pieces_of graph.now.pieces track) }
    requires zoned { All (IsZoned (length graph.now.infra.tracks) graph.now.count) to.old }
    ensures ok { OnOk result (to.new ≡ to.old ++ zoned_on graph.now track) }
    ensures zoned { OnOk result
        (All (IsZoned (length graph.now.infra.tracks) graph.now.count) to.new) }
{
    let pieces = graph.pieces(track);
    'pieces: for number in 0..pieces.len() as u32 {
        to.push(ZonedPiece {
            zone: graph.zone_of(track, number),
            piece: pieces[number as usize],
        })?;
    }
    Ok(())
}

fn track_piece(alloc: Global, tracks: &[Track], one: &ZonedPiece) -> Result<TrackPiece, NoMemory>
    requires own { IsOwn (length tracks.now) one.now.piece }
    requires ids { All (λ track. IsId track.id) tracks.now }
    ensures piece { IfOk result (λ piece. piece ≡ track_piece tracks.now one.now) }
    ensures id { IfOk result (λ piece. IsId piece.track) }
{
    let track = &tracks[one.piece.track as usize];
    Ok(TrackPiece {
        track: track.id.copy(alloc)?,
        begin: one.piece.begin as u32,
        end: one.piece.end as u32,
    })
}

/// The name of a zone with these pieces.
fn zone_name(alloc: Global, tracks: &[Track], pieces: &[ZonedPiece]) -> Result<ZoneName, NoMemory>
    requires own { All (λ one. IsOwn (length tracks.now) one.piece) pieces.now }
    requires ids { All (λ track. IsId track.id) tracks.now }
    ensures name { IfOk result (λ name. name.pieces ≡ map (track_piece tracks.now) pieces.now) }
    ensures ids { IfOk result (λ name. All (λ piece. IsId piece.track) name.pieces) }
{
    let mut named = List::new(alloc);
    'pieces: for one in pieces {
        named.push(track_piece(alloc, tracks, one)?)?;
    }
    Ok(ZoneName { pieces: named })
}

/// The pieces of each zone.
pub(crate) fn zone_names(
    alloc: Global,
    graph: &Graph,
    infra: &Infra,
) -> Result<List<ZoneName>, NoMemory>
    requires infra { IsInfra infra.now }
    requires graph { IsLayoutOf infra.now graph.now }
    ensures names { IfOk result (λ names. names ≡ zone_names infra.now graph.now) }
    ensures ids { IfOk result (λ names.
        All (λ zone. All (λ piece. IsId piece.track) zone.pieces) names) }
{
    let tracks = infra.tracks.as_slice();
    let pieces = zoned_pieces(alloc, graph, tracks.len() as u32)?;
    let zones = graph.zones();
    let rows = ByRow::of(alloc, zones, &pieces)?;
    let names = names_of(alloc, tracks, zones, &rows)?;
    Ok(names)
}

/// The pieces of each of so many zones.
fn names_of(
    alloc: Global,
    tracks: &[Track],
    zones: u32,
    rows: &ByRow<ZonedPiece>,
) -> Result<List<ZoneName>, NoMemory>
    requires own { All (λ one. IsOwn (length tracks.now) one.piece) rows.now }
    requires ids { All (λ track. IsId track.id) tracks.now }
    ensures names { IfOk result (λ names.
        names ≡ map (zone_name tracks.now rows.now) (range_with_len 0 zones)) }
    ensures ids { IfOk result (λ names.
        All (λ zone. All (λ piece. IsId piece.track) zone.pieces) names) }
{
    let mut names = List::new(alloc);
    'zones: for zone in 0..zones {
        names.push(name_of(alloc, tracks, zone, rows)?)?;
    }
    Ok(names)
}

/// The pieces of a zone.
fn name_of(
    alloc: Global,
    tracks: &[Track],
    zone: u32,
    rows: &ByRow<ZonedPiece>,
) -> Result<ZoneName, NoMemory>
    requires own { All (λ one. IsOwn (length tracks.now) one.piece) rows.now }
    requires ids { All (λ track. IsId track.id) tracks.now }
    ensures name { IfOk result (λ name. name ≡ zone_name tracks.now rows.now zone) }
    ensures ids { IfOk result (λ name. All (λ piece. IsId piece.track) name.pieces) }
{
    let name = zone_name(alloc, tracks, rows.in_row(zone))?;
    Ok(name)
}
