//! Writes that are synced.

ghost use Rattle.std.specs.Prelude.{◌≡◌, ℕ, List, Some, length, option_map, OnOk};
ghost use Rattle.outside_io.specs.Disks.{Follows, Spans, Torn, write_over};
ghost use Rattle.outside_io.specs.Faults.{HasCause};
ghost use Rattle.carry_command.specs.Unfinished.{IsTornFrom};

use outside_io::{Disk, Failed};

// Writes a piece and syncs it. Once it is done, a crash leaves the contents with the piece.
pub(crate) fn write_through<D: Disk>(disk: &mut D, at: u64, piece: &[u8]) -> Result<(), Failed>
    ensures written { OnOk result ((image : List ℕ) → D.images disk.new image →
        option_map (write_over at piece.now) (D.contents disk.old) ≡ Some image) }
    ensures contents { OnOk result (D.contents disk.new
        ≡ option_map (write_over at piece.now) (D.contents disk.old)) }
    ensures time { Spans D.clock D.since disk.old disk.new
        (IsTornFrom at (length piece.now) (D.images disk.old)) }
    ensures cause { HasCause (D.faults disk.old) (D.faults disk.new) result }
{
    disk.write_at(at, piece)?;
    disk.sync()?;
    Ok(())
}
