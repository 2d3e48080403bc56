//! Which pieces are joined to which.

ghost use Rattle.std.specs.Prelude.{◌≡◌, ◌+◌, ◌<◌, ◌++◌, [], length, IfOk, OnOk};
ghost use Rattle.std.specs.List.{All};
ghost use Rattle.std.specs.List.Sorted.{IsStrictlyIncreasing};
ghost use Rattle.track_graph.specs.Neighbours.{AreOffset, AreWithin, ShowJoins, piece_by, star};
ghost use Rattle.track_graph.specs.Neighbours.{stars, with_neighbour};

use no_memory::NoMemory;
use rail_types::List;
use rail_types::infra_types::{End, Switch, TrackEnd};
use std::alloc::Global;

/// Two pieces that a switch joins.
#[derive(Clone, Copy, Debug, PartialEq, Eq)]
pub(crate) struct Join {
    pub one: u32,
    pub other: u32,
}

/// The joins of all switches: the piece at a switch's first port with the piece at each.
pub(crate) fn joins_of(
    alloc: Global,
    firsts: &[u32],
    switches: &[Switch],
) -> Result<Vec<Join>, NoMemory>
    requires rise { IsStrictlyIncreasing firsts.now }
    requires within { AreOffset (length firsts.now) switches.now }
    ensures { IfOk result (λ joins. joins.items ≡ stars firsts.now switches.now) }
{
    let mut joins = Vec::new(alloc);
    'switches: for switch in switches {
        join_ports(&mut joins, firsts, switch.ports.as_slice())?;
    }
    Ok(joins)
}

fn join_ports(joins: &mut Vec<Join>, firsts: &[u32], ports: &[TrackEnd]) -> Result<(), NoMemory>
    requires rise { IsStrictlyIncreasing firsts.now }
    requires within { All (λ end. end.track + 1 < length firsts.now) ports.now }
    ensures ok { OnOk result (joins.new.items ≡ joins.old.items ++ star firsts.now ports.now) }
{
    let Some(first) = ports.first() else {
        return Ok(());
    };
    let one = piece_by(firsts, *first);
    'ports: for port in ports {
        joins.push(Join {
            one,
            other: piece_by(firsts, *port),
        })?;
    }
    Ok(())
}

/// The number of the piece at an end of a track.
fn piece_by(firsts: &[u32], end: TrackEnd) -> u32
    requires rise { IsStrictlyIncreasing firsts.now }
    requires within { end.track + 1 < length firsts.now }
    ensures { result ≡ piece_by firsts.now end }
{
    let track = end.track as usize;
    match end.end {
        End::Begin => firsts[track],
        End::End => firsts[track + 1] - 1,
    }
}

/// For each piece those that are joined to it.
pub(crate) fn neighbours_of(
    alloc: Global,
    pieces: u32,
    joins: &[Join],
) -> Result<Vec<List<u32>>, NoMemory>
    requires { AreWithin pieces joins.now }
    ensures long { IfOk result (λ rows. length rows.items ≡ pieces) }
    ensures joined { IfOk result (λ rows. ShowJoins rows.items joins.now) }
{
    let mut rows = no_neighbours(alloc, pieces)?;
    add_all(&mut rows, joins)?;
    Ok(rows)
}

/// Puts each piece of a join behind the neighbours of the other.
fn add_all(rows: &mut [List<u32>], joins: &[Join]) -> Result<(), NoMemory>
    requires within { AreWithin (length rows.old) joins.now }
    requires none { All (λ row. row ≡ []) rows.old }
    ensures ok { OnOk result (ShowJoins rows.new joins.now) }
{
    'joins: for join in joins {
        add_neighbour(rows, join.one, join.other)?;
        add_neighbour(rows, join.other, join.one)?;
    }
    Ok(())
}

fn no_neighbours(alloc: Global, pieces: u32) -> Result<Vec<List<u32>>, NoMemory>
    ensures long { IfOk result (λ rows. length rows.items ≡ pieces) }
    ensures none { IfOk result (λ rows. All (λ row. row ≡ []) rows.items) }
{
    let mut rows = Vec::new(alloc);
    'pieces: for _ in 0..pieces {
        rows.push(List::new(alloc))?;
    }
    Ok(rows)
}

fn add_neighbour(rows: &mut [List<u32>], to: u32, piece: u32) -> Result<(), NoMemory>
    requires { to < length rows.old }
    ensures ok { OnOk result (rows.new ≡ with_neighbour rows.old to piece) }
{
    let row = &mut rows[to as usize];
    row.push(piece)?;
    Ok(())
}
