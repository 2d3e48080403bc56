ghost use Rattle.std.specs.Prelude.{◌≡◌, ◌+◌, ◌≤◌, ℕ, List, Some, IfErr, IfOk, IfSome, IsTrue, OnOk};
ghost use Rattle.std.specs.Prelude.{drop};
ghost use Rattle.path_recover.specs.Failing.{IsAsFaulty, IsOnlyRead, IsUnread};
ghost use Rattle.path_recover.specs.Pieces.{HasLooked, IsFrontOf};

use crate::journal_reading::OpenFault;
use outside_io::Disk;
use std::alloc::Global;

// How many bytes are asked for behind the end of a file at least, so that what is written there
// while the file is read is read with it.
const AHEAD: usize = 65_536;

// All bytes of a disk, after a sync. What another process writes behind the file's end meanwhile
// is read on, until a read comes short of what was asked for.
pub(crate) fn read_file<D: Disk>(alloc: Global, disk: &mut D) -> Result<Vec<u8>, OpenFault>
    ensures bytes { IfOk result
        (λ file. IfSome (D.contents disk.old) (λ bytes. file.items ≡ bytes)) }
    ensures durable { OnOk result ((image : List ℕ) → D.images disk.new image →
        D.contents disk.old ≡ Some image) }
    ensures read { IsOnlyRead D.Disk disk.old disk.new }
    ensures tick { D.clock disk.new ≤ D.clock disk.old + 1 }
    ensures unread { IfErr result IsUnread }
    ensures cause { IsAsFaulty (D.faults disk.old) (D.faults disk.new) result }
{
    let Ok(()) = disk.sync() else {
        return Err(OpenFault::ReadFault);
    };
    let file = read_whole(alloc, disk)?;
    Ok(file)
}

// All bytes of a disk. Each read behind the first asks for an eighth of what was read before it,
// so the end comes, however fast another process writes.
fn read_whole<D: Disk>(alloc: Global, disk: &mut D) -> Result<Vec<u8>, OpenFault>
    ensures bytes { IfOk result
        (λ file. IfSome (D.contents disk.old) (λ bytes. file.items ≡ bytes)) }
    ensures looked { HasLooked D.Disk disk.old disk.new }
    ensures unread { IfErr result IsUnread }
    ensures cause { IsAsFaulty (D.faults disk.old) (D.faults disk.new) result }
{
    let Ok(count) = disk.len() else {
        return Err(OpenFault::ReadFault);
    };
    let first = read_piece(alloc, disk, 0, (count as usize).saturating_add(AHEAD))?;
    if first.ends {
        return Ok(first.bytes);
    }
    read_behind(alloc, disk, first.bytes)
}

#[tactic(auto, using(crate::proofs::Pieces::looked_on))]
// All bytes of a disk that begins with these.
fn read_behind<D: Disk>(alloc: Global, disk: &mut D, front: Vec<u8>) -> Result<Vec<u8>, OpenFault>
    requires front { IfSome (D.contents disk.old) (IsFrontOf front.items) }
    ensures bytes { IfOk result
        (λ file. IfSome (D.contents disk.old) (λ bytes. file.items ≡ bytes)) }
    ensures looked { HasLooked D.Disk disk.old disk.new }
    ensures unread { IfErr result IsUnread }
    ensures cause { IsAsFaulty (D.faults disk.old) (D.faults disk.new) result }
{
    let mut file = front;
    for _ in 0..u64::MAX {
        let asked = (file.len() / 8).max(AHEAD);
        let piece = read_piece(alloc, disk, file.len() as u64, asked)?;
        let Ok(()) = file.extend_from_slice(piece.bytes.as_slice()) else {
            return Err(OpenFault::Memory);
        };
        if piece.ends {
            return Ok(file);
        }
    }
    Err(OpenFault::Memory)
}

// Bytes that were read in one call, and whether they came short of what was asked for.
#[derive(Debug, Drop)]
struct Piece {
    bytes: Vec<u8>,
    ends: bool,
}

// Up to so many bytes of a disk, from this place on.
fn read_piece<D: Disk>(
    alloc: Global,
    disk: &mut D,
    at: u64,
    asked: usize,
) -> Result<Piece, OpenFault>
    ensures front { IfOk result (λ piece. IfSome (D.contents disk.old)
        (λ bytes. IsFrontOf piece.bytes.items (drop at bytes))) }
    ensures end { IfOk result (λ piece. IsTrue piece.ends → IfSome (D.contents disk.old)
        (λ bytes. piece.bytes.items ≡ drop at bytes)) }
    ensures looked { HasLooked D.Disk disk.old disk.new }
    ensures unread { IfErr result IsUnread }
    ensures cause { IsAsFaulty (D.faults disk.old) (D.faults disk.new) result }
{
    let Ok(mut bytes) = Vec::from_elem(alloc, 0u8, asked) else {
        return Err(OpenFault::Memory);
    };
    let Ok(count) = disk.read(at, &mut bytes) else {
        return Err(OpenFault::ReadFault);
    };
    bytes.truncate(count);
    Ok(Piece {
        bytes,
        ends: count < asked,
    })
}
