//! The port at each end of a track.

ghost use Rattle.std.specs.Prelude.{◌≡◌, ◌+◌, ◌*◌, ◌<◌, ◌^◌, length, slice_index_or, None, Some};
ghost use Rattle.std.specs.List.{All};
ghost use Rattle.track_graph.specs.Joints.{AreHeadings, AreJoints, Named, Took, heading_of};
ghost use Rattle.track_graph.specs.Joints.{joint_at};

use rail_types::infra_types::{End, Switch, TrackEnd};

/// A port, by the number of its switch and its place in the order of the switch's ports.
#[derive(Clone, Copy, Debug, PartialEq, Eq)]
pub(crate) struct Joint {
    pub switch: u32,
    pub port: u32,
}

/// The number of a track end among all ends.
pub(crate) fn heading_of(end: TrackEnd) -> usize
    requires { end.track < 2 ^ 32 }
    ensures { result ≡ heading_of end }
{
    let track = end.track as usize;
    match end.end {
        End::Begin => 2 * track,
        End::End => 2 * track + 1,
    }
}

/// The port at a track end.
pub(crate) fn joint_at(joints: &[Option<Joint>], end: TrackEnd) -> Option<Joint>
    ensures { result ≡ joint_at joints.now end }
{
    match joints.get(heading_of(end)) {
        Some(joint) => *joint,
        None => None,
    }
}

/// Puts the ports of all switches at their track ends. The first port whose end has one already
/// ends it, and gives that end.
pub(crate) fn name_all(joints: &mut [Option<Joint>], switches: &[Switch]) -> Option<TrackEnd>
    requires few { length switches.now < 2 ^ 32 }
    requires ports { All (λ switch. length switch.ports < 2 ^ 32) switches.now }
    requires within { AreHeadings (length joints.old) switches.now }
    requires none { All (λ joint. joint ≡ None) joints.old }
    ensures { Named switches.now (length switches.now) joints.new result }
{
    'switches: for number in 0..switches.len() as u32 {
        let twice = name_ports(joints, switches, number);
        if twice.is_some() {
            return twice;
        }
    }
    None
}

/// Puts the ports of one switch at their track ends.
fn name_ports(joints: &mut [Option<Joint>], switches: &[Switch], number: u32) -> Option<TrackEnd>
    requires number { number < length switches.now }
    requires ports { All (λ switch. length switch.ports < 2 ^ 32) switches.now }
    requires within { AreHeadings (length joints.old) switches.now }
    requires before { AreJoints switches.now number 0 joints.old }
    ensures { Named switches.now (number + 1) joints.new result }
{
    let switch = &switches[number as usize];
    let ports = switch.ports.as_slice();
    'ports: for port in 0..ports.len() as u32 {
        let end = ports[port as usize];
        let joint = Joint {
            switch: number,
            port,
        };
        if !take_end(joints, end, joint) {
            return Some(end);
        }
    }
    None
}

/// Puts a port at a track end, unless another is there.
fn take_end(joints: &mut [Option<Joint>], end: TrackEnd, joint: Joint) -> bool
    requires { heading_of end < length joints.old }
    ensures { Took joints.old joints.new end joint result }
{
    if joint_at(joints, end).is_some() {
        return false;
    }
    joints[heading_of(end)] = Some(joint);
    true
}
