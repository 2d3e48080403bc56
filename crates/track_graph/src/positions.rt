//! Positions beyond their tracks.

ghost use Rattle.std.specs.Prelude.{◌≡◌, map, nat_lt, option_map};
ghost use Rattle.std.specs.List.{list_any};
ghost use Rattle.track_graph.specs.Faults.{first_off, is_part_off, off_among, placed_at, points_at};
ghost use Rattle.track_graph.specs.Faults.{signals_at};
ghost use Rattle.track_graph.specs.Pieces.{length_of};

use rail_types::Name;
use rail_types::infra_types::{Infra, OperationalPoint, Part, Placed, Signal, Track};

/// The name of the first position beyond its track.
pub(crate) fn first_off(infra: &Infra) -> Option<&Name>
    ensures { option_map (λ n. n.now) result ≡ first_off infra.now }
{
    let tracks = infra.tracks.as_slice();
    let detector = off_placed(tracks, infra.detectors.as_slice());
    if detector.is_some() {
        return detector;
    }
    let stop = off_placed(tracks, infra.buffer_stops.as_slice());
    if stop.is_some() {
        return stop;
    }
    let signal = off_signal(tracks, infra.signals.as_slice());
    if signal.is_some() {
        return signal;
    }
    off_point(tracks, infra.points.as_slice())
}

fn off_placed<'a>(tracks: &[Track], placed: &'a [Placed]) -> Option<&'a Name>
    ensures { option_map (λ n. n.now) result ≡ off_among tracks.now (map placed_at placed.now) }
{
    'placed: for one in placed {
        if is_off(tracks, one.track, one.position) {
            return Some(&one.id);
        }
    }
    None
}

fn off_signal<'a>(tracks: &[Track], signals: &'a [Signal]) -> Option<&'a Name>
    ensures { option_map (λ n. n.now) result ≡ off_among tracks.now (signals_at signals.now) }
{
    'signals: for signal in signals {
        if let Some(bal) = &signal.bal {
            if is_off(tracks, bal.track, bal.position) {
                return Some(&signal.id);
            }
        }
    }
    None
}

fn off_point<'a>(tracks: &[Track], points: &'a [OperationalPoint]) -> Option<&'a Name>
    ensures { option_map (λ n. n.now) result ≡ off_among tracks.now (points_at points.now) }
{
    'points: for point in points {
        if has_part_off(tracks, point.parts.as_slice()) {
            return Some(&point.id);
        }
    }
    None
}

fn has_part_off(tracks: &[Track], parts: &[Part]) -> bool
    ensures { result ≡ list_any (is_part_off tracks.now) parts.now }
{
    parts
        .iter()
        .any(|part| is_off(tracks, part.track, part.position))
}

/// Whether the position is beyond the track.
fn is_off(tracks: &[Track], track: u32, position: u64) -> bool
    ensures { result ≡ nat_lt (length_of tracks.now track) position }
{
    position > length_of(tracks, track)
}

fn length_of(tracks: &[Track], track: u32) -> u64
    ensures { result ≡ length_of tracks.now track }
{
    match tracks.get(track as usize) {
        Some(track) => u64::from(track.length),
        None => 0,
    }
}
