//! How many stand before a metre of a track.

ghost use Rattle.std.specs.Prelude.{◌≡◌, ◌<◌, ◌≤◌, length};
ghost use Rattle.std.specs.List.{AllPairs};
ghost use Rattle.std.specs.List.Sorted.{IsNonDecreasingBy};
ghost use Rattle.track_graph.specs.Stands.{ComesBefore};
ghost use Rattle.route_walk.specs.Counts.{begun_before, below, rank_of};

use track_graph::{Piece, Stand};

/// How many of those along a track stand before this metre.
pub(crate) fn below(row: &[Stand], metre: u64) -> usize
    requires { AllPairs ComesBefore row.now }
    ensures count { result ≡ below metre row.now }
    ensures bound { result ≤ length row.now }
{
    row.partition_point(|stand| stand.position < metre)
}

/// How many of those along a track stand before one with this number at this metre.
pub(crate) fn rank_of(row: &[Stand], metre: u64, number: u32) -> usize
    requires { AllPairs ComesBefore row.now }
    ensures count { result ≡ rank_of metre number row.now }
    ensures bound { result ≤ length row.now }
{
    row.partition_point(|stand| {
        stand.position < metre || stand.position == metre && stand.number < number
    })
}

/// How many pieces of a track begin before this metre.
pub(crate) fn begun_before(pieces: &[Piece], metre: u64) -> usize
    requires { IsNonDecreasingBy (λ piece. piece.begin) pieces.now }
    ensures count { result ≡ begun_before metre pieces.now }
    ensures bound { result ≤ length pieces.now }
{
    pieces.partition_point(|piece| piece.begin < metre)
}
