ghost use Rattle.std.specs.Prelude.{◌≡◌, ◌+◌, ◌<◌, ◌≤◌, ◌∷◌, ◌++◌, [], ℕ, List, Some, IfErr, IfOk};
ghost use Rattle.std.specs.Prelude.{IfSome, OnErr, OnOk, length, slice_set, take};
ghost use Rattle.outside_io.specs.Faults.{HasCause};
ghost use Rattle.rail_types.specs.declared.entries.Entry.{Entry as entry_type};
ghost use Rattle.rail_types.specs.Timetables.{IsTimetable, timetable_of};
ghost use Rattle.grant_journal.specs.Headers.{header_of};
ghost use Rattle.grant_journal.specs.Histories.{bodies_of, front_of};
ghost use Rattle.path_recover.specs.Beginning.{WasEmpty};
ghost use Rattle.path_recover.specs.Failing.{IsAsFaulty, IsNotOfDisk, IsOnlyRead};
ghost use Rattle.path_recover.specs.Files.{IsFound, IsRefused};
ghost use Rattle.path_recover.specs.Moving.{HasMoveCause, IsMoved, IsMoveRefused, IsUnwritten};
ghost use Rattle.path_recover.specs.Moving.{move_fault};

use crate::history_reading::files::read_bytes;
use crate::history_reading::pieces::read_file;
use crate::journal_reading::OpenFault;
use grant_log::History;
use no_memory::NoMemory;
use outside_io::{Disk, Failed};
use rail_types::{Base, Network};
use std::alloc::Global;

/// Why a journal of version 1 is not moved. They are tested in this order, but for want of memory.
#[derive(Clone, Copy, Debug, PartialEq, Eq)]
pub enum MoveFault {
    /// The new disk has so many bytes.
    NotEmpty { len: u64 },
    /// The old disk is refused by opening it as a journal of version 1. It is never
    /// refused so for want of memory.
    From(OpenFault),
    /// The new disk failed. If it was empty, it may have any bytes now; if not, it is as it was.
    Fault,
    /// Memory was wanted.
    Memory,
}

// A file of version 1 up to its first gate that is not open, in the version
// of today, and a closed gate.
fn renewed(file: Vec<u8>, gate: usize) -> Result<Vec<u8>, NoMemory>
    requires { (11 < gate) × (gate ≤ length file.items) }
    ensures { IfOk result (λ bytes.
        bytes.items ≡ slice_set (take gate file.items) 11 2 ++ 0 ∷ []) }
{
    let mut bytes = file;
    bytes.truncate(gate);
    bytes[11] = 2;
    bytes.push(0)?;
    Ok(bytes)
}

// What is told where the old disk is refused.
fn refusal(fault: OpenFault) -> MoveFault
    ensures { result ≡ move_fault fault }
{
    match fault {
        OpenFault::Memory => MoveFault::Memory,
        _ => MoveFault::From(fault),
    }
}

// Writes the first bytes of an empty disk, and syncs them.
fn write_first<D: Disk>(disk: &mut D, bytes: &[u8]) -> Result<(), Failed>
    ensures images { OnOk result ((image : List ℕ) → D.images disk.new image →
        (was : List ℕ) × (D.contents disk.old ≡ Some was) × (was ≡ [] → image ≡ bytes.now)) }
    ensures cause { HasCause (D.faults disk.old) (D.faults disk.new) result }
{
    disk.write_at(0, bytes)?;
    disk.sync()?;
    Ok(())
}

// The offset of the first gate that is not open in a file of version 1, and how many entries
// stand before it.
fn gate_of(
    alloc: Global,
    file: &[u8],
    empty: History,
    network: &[u8; 32],
    base: &[u8; 32],
) -> Result<(u64, u64), OpenFault>
    requires empty { empty.entries ≡ [] }
    ensures found { IfOk result (λ found. (entries : List entry_type)
        × IsFound empty.timetable 1 network.now base.now file.now entries found.0
        × (found.1 ≡ length entries)) }
    ensures refused { IfErr result
        (IsRefused empty.timetable 1 network.now base.now file.now) }
    ensures quiet { IfErr result IsNotOfDisk }
{
    let found = read_bytes(alloc, file, empty, 1, network, base)?;
    Ok((found.gate, found.history.front()))
}

// The new file of an old one with these bytes, and how many entries it has.
fn renewed_from(
    alloc: Global,
    file: Vec<u8>,
    empty: History,
    network: &[u8; 32],
    base: &[u8; 32],
) -> Result<(Vec<u8>, u64), OpenFault>
    requires empty { empty.entries ≡ [] }
    ensures moved { IfOk result (λ moved. IsMoved empty.timetable network.now base.now moved.1
        (λ image. image ≡ moved.0.items) file.items) }
    ensures refused { IfErr result
        (IsRefused empty.timetable 1 network.now base.now file.items) }
    ensures quiet { IfErr result IsNotOfDisk }
{
    let (gate, count) = gate_of(alloc, &file, empty, network, base)?;
    match renewed(file, gate as usize) {
        Ok(bytes) => Ok((bytes, count)),
        Err(NoMemory) => Err(OpenFault::Memory),
    }
}

// The new file of an old one, and how many entries it has.
fn read_old<E: Disk>(
    alloc: Global,
    from: &mut E,
    empty: History,
    network: &[u8; 32],
    base: &[u8; 32],
) -> Result<(Vec<u8>, u64), OpenFault>
    requires empty { empty.entries ≡ [] }
    ensures moved { IfOk result (λ moved. IfSome (E.contents from.old)
        (IsMoved empty.timetable network.now base.now moved.1 (λ image. image ≡ moved.0.items))) }
    ensures read { IsOnlyRead E.Disk from.old from.new }
    ensures refused { IfErr result (λ fault. IfSome (E.contents from.old) (λ file.
        IsRefused empty.timetable 1 network.now base.now file fault)) }
    ensures cause { IsAsFaulty (E.faults from.old) (E.faults from.new) result }
{
    let file = read_file(alloc, from)?;
    renewed_from(alloc, file, empty, network, base)
}

/// Moves a journal of version 1 to an empty disk, for the same network's file and base
/// timetable's file: behind the header of today stand the entries of the old file, and then a
/// closed gate, in one write, and a sync. It answers how many they are, and hands the old disk
/// back, which is synced and read.
pub fn init_from<D: Disk, E: Disk>(
    alloc: Global,
    disk: &mut D,
    from: E,
    net: &Network,
    base: Base,
    network: &[u8; 32],
    base_digest: &[u8; 32],
) -> Result<(E, u64), (E, MoveFault)>
    requires { IsTimetable (timetable_of net.now base) }
    ensures moved { IfOk result (λ moved. IfSome (E.contents from) (IsMoved
        (timetable_of net.now base) network.now base_digest.now moved.1 (D.images disk.new))) }
    ensures empty { OnOk result (WasEmpty D.Disk disk.old) }
    ensures refused { IfErr result (λ refused. IsMoveRefused D.Disk E.Disk
        (timetable_of net.now base) network.now base_digest.now disk.old from refused.1) }
    ensures unwritten { IfErr result (λ refused. IsUnwritten D.Disk disk.old disk.new refused.1) }
    ensures read { IfOk result (λ moved. IsOnlyRead E.Disk from moved.0) }
    ensures read_back { IfErr result (λ refused. IsOnlyRead E.Disk from refused.0) }
    ensures quiet { IfOk result (λ moved. (D.faults disk.new ≡ D.faults disk.old)
        × (E.faults moved.0 ≡ E.faults from)) }
    ensures cause { IfErr result (λ refused. HasMoveCause (D.faults disk.old) (D.faults disk.new)
        (E.faults from) (E.faults refused.0) refused.1) }
{
    let mut from = from;
    let Ok(len) = disk.len() else {
        return Err((from, MoveFault::Fault));
    };
    if len != 0 {
        return Err((from, MoveFault::NotEmpty { len }));
    }
    let Ok(net) = net.copy(alloc) else {
        return Err((from, MoveFault::Memory));
    };
    let empty = History::new(alloc, net, base);
    let (bytes, count) = match read_old(alloc, &mut from, empty, network, base_digest) {
        Ok(moved) => moved,
        Err(fault) => return Err((from, refusal(fault))),
    };
    let Ok(()) = write_first(disk, &bytes) else {
        return Err((from, MoveFault::Fault));
    };
    Ok((from, count))
}
