//! A file in parts, its first byte last.

ghost use Rattle.std.specs.Prelude.{◌≡◌, ◌⊎◌, [], ℕ, List, IfSome, OnOk};
ghost use Rattle.outside_io.specs.Disks.{Spans};
ghost use Rattle.outside_io.specs.Faults.{HasCause};
ghost use Rattle.carry_command.specs.Unfinished.{IsMarked, IsWholeOrUnfinished};

use crate::whole_files::writes::write_through;
use outside_io::{Disk, Failed};

/// Writes a file to a disk that has no byte, its first byte last, and syncs each part before the
/// next.
pub(crate) fn write_parts<D: Disk>(disk: &mut D, file: &[u8]) -> Result<(), Failed>
    requires marked { IsMarked file.now }
    requires empty { IfSome (D.contents disk.old) (λ bytes. bytes ≡ []) }
    ensures whole { OnOk result ((image : List ℕ) → D.images disk.new image → image ≡ file.now) }
    ensures contents { OnOk result (IfSome (D.contents disk.new) (λ bytes. bytes ≡ file.now)) }
    ensures moments { Spans D.clock D.since disk.old disk.new
        (λ image. D.images disk.old image ⊎ IsWholeOrUnfinished file.now image) }
    ensures cause { HasCause (D.faults disk.old) (D.faults disk.new) result }
{
    let (first, rest) = file.split_at(1);
    disk.sync()?;
    write_through(disk, 0, &[0])?;
    write_through(disk, 1, rest)?;
    write_through(disk, 0, first)?;
    Ok(())
}
