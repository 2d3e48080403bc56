//! The lines of zones.

ghost use Rattle.std.specs.Prelude.{◌≡◌, ◌<◌, ◌++◌, ◌^◌, OnOk};
ghost use Rattle.stairway_print.specs.Networks.{piece_text, pieces_text, zone_line, zone_lines};

use crate::words::{push_name, push_number};
use no_memory::NoMemory;
use rail_types::named_network::{TrackPiece, ZoneName};
use std::alloc::Global;

/// Appends a line for each zone.
pub(crate) fn push_zones(
    alloc: Global,
    to: &mut Vec<u8>,
    zones: &[ZoneName],
) -> Result<(), NoMemory>
    ensures { OnOk result (to.new.items ≡ to.old.items ++ zone_lines 0 zones.now) }
{
    let mut number = 0u64;
    'zones: for zone in zones {
        push_zone(alloc, to, number, zone)?;
        number += 1;
    }
    Ok(())
}

fn push_zone(alloc: Global, to: &mut Vec<u8>, number: u64, zone: &ZoneName) -> Result<(), NoMemory>
    ensures { OnOk result (to.new.items ≡ to.old.items ++ zone_line number zone.now) }
{
    push_number(to, b"zone ", number)?;
    push_number(to, b" pieces ", zone.pieces.len() as u64)?;
    push_pieces(alloc, to, zone.pieces.as_slice())?;
    to.push(b'\n')?;
    Ok(())
}

fn push_pieces(alloc: Global, to: &mut Vec<u8>, pieces: &[TrackPiece]) -> Result<(), NoMemory>
    ensures { OnOk result (to.new.items ≡ to.old.items ++ pieces_text pieces.now) }
{
    'pieces: for piece in pieces {
        push_piece(alloc, to, piece)?;
    }
    Ok(())
}

fn push_piece(alloc: Global, to: &mut Vec<u8>, piece: &TrackPiece) -> Result<(), NoMemory>
    ensures { OnOk result (to.new.items ≡ to.old.items ++ piece_text piece.now) }
{
    push_name(alloc, to, b" ", piece.track.as_bytes())?;
    push_number(to, b" ", u64::from(piece.begin))?;
    push_number(to, b" ", u64::from(piece.end))?;
    Ok(())
}
