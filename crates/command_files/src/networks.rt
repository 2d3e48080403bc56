//! The network's file.

ghost use Rattle.std.specs.Prelude.{◌≡◌, IfErr, IfOk};
ghost use Rattle.command_files.specs.Files.{InfraSays, IsInfraOf, IsNetworkFile, NamedSays};
ghost use Rattle.command_files.specs.Files.{NetworkStep, NetworkTold, TellsNet, TellsRead};
ghost use Rattle.command_reports.specs.Scenes.{scene};
ghost use Rattle.rail_types.specs.Infras.{IsInfra};
ghost use Rattle.rail_types.specs.Named.{IsNamed};

use crate::files::{FileKind, bytes_of};
use command_reports::Refusal;
use no_memory::NoMemory;
use outside_io::Outside;
use rail_types::infra_types::Infra;
use rail_types::named_network::Named;
use railjson_read::{InfraFault, read_infra};
use sha2::{Digest, Sha256};
use signal_blocks::{NetFault, network_of};
use std::alloc::Global;

/// What a network's file tells: the network with its names, and the
/// SHA-256 digest of the file's bytes.
#[derive(Debug, Drop)]
pub struct NetworkFile {
    pub named: Named,
    pub digest: [u8; 32],
}

/// Opens a network's file, reads it as a whole, puts it back, and cuts its tracks into zones and
/// blocks. The first fault of the file refuses, as `network: F`.
pub fn read_network_file<O: Outside>(
    alloc: Global,
    name: &str,
    outside: &mut O,
) -> Result<NetworkFile, Refusal>
    ensures step { NetworkStep O.Src.Source name.now (scene O.Outside outside.old)
        (scene O.Outside outside.new) result }
    ensures named { IfOk result (λ file. IsNamed file.named) }
{
    let bytes = bytes_of(alloc, FileKind::Network, name, outside)?;
    let digest = Sha256::digest(bytes.as_slice());
    let named = network_of_bytes(alloc, bytes)?;
    Ok(NetworkFile { named, digest })
}

/// The same where nothing is asked of the file but its network: no digest is made.
pub fn read_network<O: Outside>(
    alloc: Global,
    name: &str,
    outside: &mut O,
) -> Result<Named, Refusal>
    ensures step { NetworkTold O.Src.Source name.now (scene O.Outside outside.old)
        (scene O.Outside outside.new) result }
    ensures named { IfOk result IsNamed }
{
    let bytes = bytes_of(alloc, FileKind::Network, name, outside)?;
    let named = network_of_bytes(alloc, bytes)?;
    Ok(named)
}

/// The network that a file's bytes tell. They are let go before values are made of them.
pub fn network_of_bytes(alloc: Global, bytes: Vec<u8>) -> Result<Named, Refusal>
    ensures says { NamedSays bytes.items result }
    ensures named { IfOk result IsNamed }
{
    let infra = infra_of(alloc, bytes)?;
    match network_of(alloc, &infra) {
        Ok(named) => Ok(named),
        Err(fault) => Err(net_refusal(alloc, &fault)),
    }
}

// The infrastructure that a file's bytes tell.
fn infra_of(alloc: Global, bytes: Vec<u8>) -> Result<Infra, Refusal>
    ensures infra { IfOk result (IsInfraOf bytes.items) }
    ensures sound { IfOk result IsInfra }
    ensures fault { IfErr result (InfraSays bytes.items) }
{
    match read_infra(alloc, bytes) {
        Ok(infra) => Ok(infra),
        Err(fault) => Err(read_refused(alloc, fault)),
    }
}

// A fault of reading by its text, and the fault let go.
fn read_refused(alloc: Global, fault: InfraFault) -> Refusal
    ensures { TellsRead fault result }
{
    read_refusal(alloc, &fault)
}

// A fault of reading by its text.
fn read_refusal(alloc: Global, fault: &InfraFault) -> Refusal
    ensures { TellsRead fault.now result }
{
    if matches!(fault, InfraFault::Memory) {
        return Refusal::Memory;
    }
    match railjson_read::fault_text(alloc, fault) {
        Ok(text) => FileKind::Network.refusal(alloc, text.as_slice()),
        Err(NoMemory) => Refusal::Memory,
    }
}

// A fault of the network by its text.
fn net_refusal(alloc: Global, fault: &NetFault) -> Refusal
    ensures { TellsNet fault.now result }
{
    if matches!(fault, NetFault::Memory) {
        return Refusal::Memory;
    }
    match signal_blocks::fault_text(alloc, fault) {
        Ok(text) => FileKind::Network.refusal(alloc, text.as_slice()),
        Err(NoMemory) => Refusal::Memory,
    }
}
