//! Words of a file that stand for one of a few things.

ghost use Rattle.std.specs.Prelude.{◌≡◌};
ghost use Rattle.serde_json.specs.View.{view};
ghost use Rattle.infra_fields.specs.Fields.{Gives};
ghost use Rattle.infra_fields.specs.Words.{direction_named, direction_at, end_named, end_at};
ghost use Rattle.infra_fields.specs.Words.{applies_named, applies_at, kind_named, group_named};
ghost use Rattle.infra_fields.specs.Words.{ports_of, port_name, port_within};

use crate::faults::InfraFault;
use crate::fields::{text, wrong_kind};
use json_fields::Place;
use rail_types::infra_types::{Applies, Direction, End, Group, SwitchKind};
use serde_json::Value;
use std::alloc::Global;

/// A port of a switch.
#[derive(Clone, Copy, Debug, PartialEq, Eq)]
pub enum Port {
    A,
    B,
    A1,
    A2,
    B1,
    B2,
}

/// The direction in a field.
pub fn direction(
    alloc: Global,
    place: &Place,
    value: &Value,
    field: &str,
) -> Result<Direction, InfraFault>
    ensures { Gives (λ direction. direction) result
        (direction_at place.now field.now (view value.now)) }
{
    let word = text(alloc, place, value, field)?;
    let Some(direction) = direction_named(word) else {
        return Err(wrong_kind(alloc, place, field));
    };
    Ok(direction)
}

fn direction_named(word: &str) -> Option<Direction>
    ensures { result ≡ direction_named word.now }
{
    if word == "START_TO_STOP" {
        Some(Direction::StartToStop)
    } else if word == "STOP_TO_START" {
        Some(Direction::StopToStart)
    } else {
        None
    }
}

/// The end of a track in a field.
pub fn end(alloc: Global, place: &Place, value: &Value, field: &str) -> Result<End, InfraFault>
    ensures { Gives (λ end. end) result (end_at place.now field.now (view value.now)) }
{
    let word = text(alloc, place, value, field)?;
    let Some(end) = end_named(word) else {
        return Err(wrong_kind(alloc, place, field));
    };
    Ok(end)
}

fn end_named(word: &str) -> Option<End>
    ensures { result ≡ end_named word.now }
{
    if word == "BEGIN" {
        Some(End::Begin)
    } else if word == "END" {
        Some(End::End)
    } else {
        None
    }
}

/// The directions of a range in a field.
pub fn applies(
    alloc: Global,
    place: &Place,
    value: &Value,
    field: &str,
) -> Result<Applies, InfraFault>
    ensures { Gives (λ applies. applies) result (applies_at place.now field.now (view value.now)) }
{
    let word = text(alloc, place, value, field)?;
    let Some(applies) = applies_named(word) else {
        return Err(wrong_kind(alloc, place, field));
    };
    Ok(applies)
}

fn applies_named(word: &str) -> Option<Applies>
    ensures { result ≡ applies_named word.now }
{
    if word == "START_TO_STOP" {
        Some(Applies::StartToStop)
    } else if word == "STOP_TO_START" {
        Some(Applies::StopToStart)
    } else if word == "BOTH" {
        Some(Applies::Both)
    } else {
        None
    }
}

/// The kind of switch that a word names.
pub fn kind_named(word: &str) -> Option<SwitchKind>
    ensures { result ≡ kind_named word.now }
{
    if word == "point_switch" {
        Some(SwitchKind::Point)
    } else if word == "link" {
        Some(SwitchKind::Link)
    } else if word == "crossing" {
        Some(SwitchKind::Crossing)
    } else if word == "double_slip_switch" {
        Some(SwitchKind::DoubleSlip)
    } else {
        None
    }
}

/// The group that a word names.
pub fn group_named(word: &str) -> Group
    ensures { result ≡ group_named word.now }
{
    match word {
        "A_B1" => Group::AB1,
        "A_B2" => Group::AB2,
        "A1_B1" => Group::A1B1,
        "A1_B2" => Group::A1B2,
        "A2_B1" => Group::A2B1,
        "A2_B2" => Group::A2B2,
        _ => Group::Other,
    }
}

/// The ports of a kind of switch, in their order.
pub fn ports_of(kind: SwitchKind) -> &'static [Port]
    ensures { result.now ≡ ports_of kind }
{
    match kind {
        SwitchKind::Point => &[Port::A, Port::B1, Port::B2],
        SwitchKind::Link => &[Port::A, Port::B],
        SwitchKind::Crossing => &[Port::A1, Port::B1, Port::A2, Port::B2],
        SwitchKind::DoubleSlip => &[Port::A1, Port::A2, Port::B1, Port::B2],
    }
}

/// The key of a port.
pub fn port_name(port: Port) -> &'static str
    ensures { result.now ≡ port_name port }
{
    match port {
        Port::A => "A",
        Port::B => "B",
        Port::A1 => "A1",
        Port::A2 => "A2",
        Port::B1 => "B1",
        Port::B2 => "B2",
    }
}

/// The fields that lead to a port.
pub fn port_within(port: Port) -> &'static str
    ensures { result.now ≡ port_within port }
{
    match port {
        Port::A => "ports.A",
        Port::B => "ports.B",
        Port::A1 => "ports.A1",
        Port::A2 => "ports.A2",
        Port::B1 => "ports.B1",
        Port::B2 => "ports.B2",
    }
}
