//! Faults as reports write them.

ghost use Rattle.std.specs.Prelude.{◌≡◌, ◌++◌, IfOk, OnOk};
ghost use Rattle.std.specs.Fmt.{decimal};
ghost use Rattle.json_fields.specs.Escapes.{escaped};
ghost use Rattle.signal_blocks.specs.Texts.{end_word, word_of, id_fault, fault_at, end_fault};
ghost use Rattle.signal_blocks.specs.Texts.{stray_fault, limit_fault, graph_fault, route_fault};
ghost use Rattle.signal_blocks.specs.Texts.{fault_text};

use crate::block_cuts::What;
use crate::faults::{NetFault, RouteFault};
use itoa::Buffer;
use json_fields::escaped;
use no_memory::NoMemory;
use rail_types::Name;
use rail_types::infra_types::End;
use std::alloc::Global;
use track_graph::GraphFault;

/// The text of a fault, as `empty-block r at 1000`; ids are escaped.
pub fn fault_text(alloc: Global, fault: &NetFault) -> Result<Vec<u8>, NoMemory>
    ensures { IfOk result (λ text. text.items ≡ fault_text fault.now) }
{
    match fault {
        NetFault::Graph(fault) => graph_fault(alloc, fault),
        NetFault::Walk(fault) => route_fault(alloc, fault),
        NetFault::EmptyBlock { route, at } => fault_at(alloc, b"empty-block ", route, *at),
        NetFault::Limit { what, count } => limit_fault(alloc, *what, count),
        NetFault::Memory => alone(alloc, b"no-memory"),
    }
}

fn graph_fault(alloc: Global, fault: &GraphFault) -> Result<Vec<u8>, NoMemory>
    ensures { IfOk result (λ text. text.items ≡ graph_fault fault.now) }
{
    match fault {
        GraphFault::EndTwice { track, end } => end_fault(alloc, track, *end),
        GraphFault::OffTrack { id } => id_fault(alloc, b"off-track ", id),
        GraphFault::Memory => alone(alloc, b"no-memory"),
    }
}

fn route_fault(alloc: Global, fault: &RouteFault) -> Result<Vec<u8>, NoMemory>
    ensures { IfOk result (λ text. text.items ≡ route_fault fault.now) }
{
    match fault {
        RouteFault::NoWay { route, at } => fault_at(alloc, b"no-way ", route, *at),
        RouteFault::Loop { route } => id_fault(alloc, b"loop ", route),
        RouteFault::StrayRelease { route, detector } => stray_fault(alloc, route, detector),
    }
}

fn alone(alloc: Global, word: &[u8]) -> Result<Vec<u8>, NoMemory>
    ensures { IfOk result (λ text. text.items ≡ word.now) }
{
    let text = Vec::from_slice(alloc, word)?;
    Ok(text)
}

fn id_fault(alloc: Global, word: &[u8], id: &Name) -> Result<Vec<u8>, NoMemory>
    ensures { IfOk result (λ text. text.items ≡ id_fault word.now id.now) }
{
    let mut text = Vec::from_slice(alloc, word)?;
    let id = escaped(alloc, id.as_bytes())?;
    text.extend_from_slice(id.as_slice())?;
    Ok(text)
}

fn fault_at(alloc: Global, word: &[u8], id: &Name, at: u64) -> Result<Vec<u8>, NoMemory>
    ensures { IfOk result (λ text. text.items ≡ fault_at word.now id.now at) }
{
    let mut digits = Buffer::new();
    let mut text = id_fault(alloc, word, id)?;
    text.extend_from_slice(b" at ")?;
    text.extend_from_slice(digits.format(at).as_bytes())?;
    Ok(text)
}

fn end_fault(alloc: Global, track: &Name, end: End) -> Result<Vec<u8>, NoMemory>
    ensures { IfOk result (λ text. text.items ≡ end_fault track.now end) }
{
    let mut text = id_fault(alloc, b"end-twice ", track)?;
    text.extend_from_slice(b" ")?;
    text.extend_from_slice(end_word(end))?;
    Ok(text)
}

fn end_word(end: End) -> &'static [u8]
    ensures { result.now ≡ end_word end }
{
    match end {
        End::Begin => b"BEGIN",
        End::End => b"END",
    }
}

fn stray_fault(alloc: Global, route: &Name, detector: &Name) -> Result<Vec<u8>, NoMemory>
    ensures { IfOk result (λ text. text.items ≡ stray_fault route.now detector.now) }
{
    let mut text = id_fault(alloc, b"stray-release ", route)?;
    let detector = escaped(alloc, detector.as_bytes())?;
    text.extend_from_slice(b" ")?;
    text.extend_from_slice(detector.as_slice())?;
    Ok(text)
}

fn limit_fault(alloc: Global, what: What, count: &i64) -> Result<Vec<u8>, NoMemory>
    ensures { IfOk result (λ text. text.items ≡ limit_fault what count.now) }
{
    let mut digits = Buffer::new();
    let mut text = Vec::from_slice(alloc, b"limit ")?;
    text.extend_from_slice(word_of(what))?;
    text.extend_from_slice(b" ")?;
    text.extend_from_slice(digits.format(*count).as_bytes())?;
    Ok(text)
}

fn word_of(what: What) -> &'static [u8]
    ensures { result.now ≡ word_of what }
{
    match what {
        What::Zones => b"zones",
        What::Points => b"points",
        What::Blocks => b"blocks",
        What::Cells => b"cells",
        What::BlockLength => b"block-length",
    }
}
