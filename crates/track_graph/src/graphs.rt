//! The graph of an infrastructure.

ghost use Rattle.std.specs.Prelude.{◌≡◌, ℕ, ◌*◌, ◌<◌, ◌↔◌, ◌^◌, length, map, slice_get, IfErr};
ghost use Rattle.std.specs.Prelude.{IfOk, Some, None};
ghost use Rattle.std.specs.List.{All};
ghost use Rattle.std.specs.List.Sorted.{IsNonDecreasingBy};
ghost use Rattle.track_graph.specs.Faults.{first_off};
ghost use Rattle.rail_types.specs.Infras.{IsInfra};
ghost use Rattle.track_graph.specs.Joints.{AreAllNamed, junction_of};
ghost use Rattle.track_graph.specs.Layouts.{IsLayout, IsLayoutOf, IsStep, IsSwitchAt, Tells};
ghost use Rattle.track_graph.specs.Layouts.{zone_at};
ghost use Rattle.track_graph.specs.Graphs.{IsGraph, TellsOf};
ghost use Rattle.track_graph.specs.Pieces.{AreCutFrom, AreOn, pieces_of};
ghost use Rattle.track_graph.specs.Stands.{AreStands, stands_of};

use crate::faults::GraphFault;
use crate::joints::{Joint, joint_at, name_all};
use crate::neighbours::joins_of;
use crate::numbering::{Zones, zones_of};
use crate::pieces::{Piece, firsts_of, pieces_by_track};
use crate::positions::first_off;
use crate::stands::{Stand, stands_by_track};
use crate::ways::{Junction, port_across};
use no_memory::NoMemory;
use rail_types::List;
use rail_types::infra_types::{Group, Infra, Switch, TrackEnd};
use std::alloc::Global;
use std::marker::Model;
use std::snapshot::Snapshot;

/// The graph of an infrastructure: where ways across switches lead, the pieces of each track, and
/// their zones. Contracts see the layout, and the infrastructure in it.
#[derive(Drop)]
pub struct Graph {
    infra: Snapshot<Infra>,
    stands: Vec<List<Stand>>,
    stops: Vec<List<Stand>>,
    pieces: Vec<List<Piece>>,
    firsts: Vec<u32>,
    zones: Zones,
    joints: Vec<Option<Joint>>,
    junctions: Vec<Junction>,
}

impl Model for Graph {
    ghost use Rattle.track_graph.specs.Graphs.{IsGraph, layout_of};
    ghost use Rattle.track_graph.specs.Layouts.{Layout};

    ghost Value = { Layout };

    ghost view = { λ g.
        layout_of g.infra.value g.stands.items g.stops.items g.pieces.items g.zones };

    ghost invariant = { λ g.
        IsGraph (layout_of g.infra.value g.stands.items g.stops.items g.pieces.items g.zones)
        g.firsts.items g.joints.items g.junctions.items };
}

impl Graph {
    /// The graph of an infrastructure.
    ///
    /// # Errors
    ///
    /// `EndTwice` at the first port, by switch and then in the order of the kind's ports, that
    /// names a track end already named. Else `OffTrack` at the first position beyond its track: of
    /// a detector, then of a buffer stop, of a block signal, of a part of an operational point.
    /// `Memory` where memory runs out.
    pub fn of(alloc: Global, infra: &Infra) -> Result<Graph, GraphFault>
        requires { IsInfra infra.now }
        ensures graph { IfOk result (IsLayoutOf infra.now) }
        ensures fault { IfErr result (Tells infra.now) }
    {
        let joints = joints_of(alloc, infra)?;
        if let Some(id) = first_off(infra) {
            return Err(GraphFault::OffTrack {
                id: id.copy(alloc)?,
            });
        }
        let graph = lay_out(alloc, infra, joints)?;
        Ok(graph)
    }

    /// The end of a track to which a switch leads from this one in this group, None where no switch
    /// or no such way is there. A link and a crossing lead on in every group.
    pub fn step(&self, end: TrackEnd, group: Group) -> Option<TrackEnd>
        ensures { IsStep self.now end group result }
    {
        let Some(joint) = joint_at(&self.joints, end) else {
            return None;
        };
        let junction = &self.junctions[joint.switch as usize];
        let Some(other) = port_across(junction.kind, group, joint.port) else {
            return None;
        };
        end_at(junction.ports.as_slice(), other)
    }

    /// The number of the switch that has a port at this end of a track.
    pub fn switch_at(&self, end: TrackEnd) -> Option<u32>
        ensures { IsSwitchAt self.now end result }
    {
        let Some(joint) = joint_at(&self.joints, end) else {
            return None;
        };
        Some(joint.switch)
    }

    /// How many zones there are; they are numbered from 0 by their first pieces.
    pub fn zones(&self) -> u32
        ensures count { result ≡ self.now.count }
        ensures layout { IsLayout self.now }
    {
        self.zones.count
    }

    /// The zone of a track's piece, by the number of the track and the number of the piece on it.
    pub fn zone_of(&self, track: u32, piece: u32) -> u32
        requires track { track < length self.now.infra.tracks }
        requires piece { piece < length (pieces_of self.now.pieces track) }
        ensures zone { result ≡ zone_at self.now track piece }
        ensures below { zone_at self.now track piece < self.now.count }
    {
        let number = self.firsts[track as usize] + piece;
        self.zones.of_pieces[number as usize]
    }

    /// The pieces of a track, from its begin to its end: it is cut where detectors stand.
    pub fn pieces(&self, track: u32) -> &[Piece]
        requires { track < length self.now.infra.tracks }
        ensures pieces { result.now ≡ pieces_of self.now.pieces track }
        ensures cut { AreCutFrom self.now.infra.tracks self.now.stands self.now.pieces track }
        ensures some { 0 < length (pieces_of self.now.pieces track) }
        ensures order { IsNonDecreasingBy (λ piece. piece.begin) (pieces_of self.now.pieces track) }
    {
        let row = &self.pieces[track as usize];
        row.as_slice()
    }

    /// The detectors of a track, from its begin to its end; those at one position in the file's
    /// order. Each stands within the track.
    pub fn stands(&self, track: u32) -> &[Stand]
        requires { track < length self.now.infra.tracks }
        ensures stands { result.now ≡ stands_of self.now.stands track }
        ensures row { AreStands self.now.infra.detectors track (stands_of self.now.stands track) }
        ensures within { AreOn self.now.infra.tracks track (stands_of self.now.stands track) }
    {
        let row = &self.stands[track as usize];
        row.as_slice()
    }

    /// The buffer stops of a track, from its begin to its end; those at one position in the file's
    /// order. Each stands within the track.
    pub fn stops(&self, track: u32) -> &[Stand]
        requires { track < length self.now.infra.tracks }
        ensures stops { result.now ≡ stands_of self.now.stops track }
        ensures row { AreStands self.now.infra.buffer_stops track (stands_of self.now.stops track) }
        ensures within { AreOn self.now.infra.tracks track (stands_of self.now.stops track) }
    {
        let row = &self.stops[track as usize];
        row.as_slice()
    }
}

fn end_at(ports: &[TrackEnd], port: u32) -> Option<TrackEnd>
    ensures { result ≡ slice_get ports.now port }
{
    match ports.get(port as usize) {
        Some(end) => Some(*end),
        None => None,
    }
}

/// The port at each end of a track.
fn joints_of(alloc: Global, infra: &Infra) -> Result<Vec<Option<Joint>>, GraphFault>
    requires { IsInfra infra.now }
    ensures joints { IfOk result (λ joints. AreAllNamed infra.now.switches joints.items) }
    ensures fault { IfErr result (TellsOf infra.now) }
{
    let tracks = infra.tracks.as_slice();
    let mut joints = no_joints(alloc, 2 * tracks.len())?;
    let Some(end) = name_all(&mut joints, infra.switches.as_slice()) else {
        return Ok(joints);
    };
    let track = &tracks[end.track as usize];
    Err(GraphFault::EndTwice {
        track: track.id.copy(alloc)?,
        end: end.end,
    })
}

fn no_joints(alloc: Global, ends: usize) -> Result<Vec<Option<Joint>>, NoMemory>
    ensures long { IfOk result (λ joints. length joints.items ≡ ends) }
    ensures none { IfOk result (λ joints. All (λ joint. joint ≡ None) joints.items) }
{
    let joints = vec![in alloc; None; ends]?;
    Ok(joints)
}

/// The graph of an infrastructure whose ports and positions are sound.
fn lay_out(alloc: Global, infra: &Infra, joints: Vec<Option<Joint>>) -> Result<Graph, NoMemory>
    requires infra { IsInfra infra.now }
    requires joints { AreAllNamed infra.now.switches joints.items }
    requires within { first_off infra.now ≡ None }
    ensures { IfOk result (IsLayoutOf infra.now) }
{
    let tracks = infra.tracks.as_slice();
    let switches = infra.switches.as_slice();
    let stands = stands_by_track(alloc, tracks.len() as u32, infra.detectors.as_slice())?;
    let stops = stands_by_track(alloc, tracks.len() as u32, infra.buffer_stops.as_slice())?;
    let pieces = pieces_by_track(alloc, tracks, &stands)?;
    let firsts = firsts_of(alloc, &pieces)?;
    let joins = joins_of(alloc, &firsts, switches)?;
    let zones = zones_of(alloc, firsts[tracks.len()], &joins)?;
    let junctions = junctions_of(alloc, switches)?;
    Ok(Graph {
        infra: Snapshot::of(infra),
        stands,
        stops,
        pieces,
        firsts,
        zones,
        joints,
        junctions,
    })
}

fn junctions_of(alloc: Global, switches: &[Switch]) -> Result<Vec<Junction>, NoMemory>
    ensures { IfOk result (λ junctions. junctions.items ≡ map junction_of switches.now) }
{
    let mut junctions = Vec::new(alloc);
    'switches: for switch in switches {
        junctions.push(Junction {
            kind: switch.kind,
            ports: switch.ports.copy(alloc)?,
        })?;
    }
    Ok(junctions)
}
