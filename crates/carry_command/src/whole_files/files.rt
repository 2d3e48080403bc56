//! A disk that has no byte, and a file that is written to it.

ghost use Rattle.std.specs.Prelude.{◌≡◌, ◌⊎◌, ℕ, List, IfErr, IfSome, OnErr, OnOk};
ghost use Rattle.outside_io.specs.Disks.{Spans};
ghost use Rattle.path_recover.specs.Beginning.{HasInitCause, IsAsItWas, IsNotEmpty, IsUntouched};
ghost use Rattle.path_recover.specs.Beginning.{WasEmpty};
ghost use Rattle.carry_command.specs.Unfinished.{IsMarked, IsWholeOrUnfinished};

use crate::whole_files::parts::write_parts;
use outside_io::Disk;
use path_recover::journal_reading::InitFault;

/// Whether a disk has no byte. Nothing is written.
pub fn check_empty<D: Disk>(disk: &mut D) -> Result<(), InitFault>
    ensures empty { OnOk result (WasEmpty D.Disk disk.old) }
    ensures refused { IfErr result (λ fault. IfSome (D.contents disk.old) (IsNotEmpty fault)) }
    ensures same { IsAsItWas D.Disk disk.old disk.new }
    ensures cause { HasInitCause (D.faults disk.old) (D.faults disk.new) result }
{
    let Ok(len) = disk.len() else {
        return Err(InitFault::Fault);
    };
    if len != 0 {
        return Err(InitFault::NotEmpty { len });
    }
    Ok(())
}

/// Writes a file to an empty disk, its first byte last, and syncs each part before the next. The
/// first byte must not be 0. At each moment a crash leaves what it would have left before, or the
/// whole file, or bytes that are told from it by their first byte or are at most one. It takes no
/// memory.
pub fn write_whole<D: Disk>(disk: &mut D, file: &[u8]) -> Result<(), InitFault>
    requires marked { IsMarked file.now }
    ensures whole { OnOk result ((image : List ℕ) → D.images disk.new image → image ≡ file.now) }
    ensures contents { OnOk result (IfSome (D.contents disk.new) (λ bytes. bytes ≡ file.now)) }
    ensures moments { Spans D.clock D.since disk.old disk.new
        (λ image. D.images disk.old image ⊎ IsWholeOrUnfinished file.now image) }
    ensures left { (image : List ℕ) → D.images disk.new image →
        D.images disk.old image ⊎ IsWholeOrUnfinished file.now image }
    ensures empty { OnOk result (WasEmpty D.Disk disk.old) }
    ensures refused { IfErr result (λ fault. IfSome (D.contents disk.old) (IsNotEmpty fault)) }
    ensures untouched { IfErr result (λ fault. IsUntouched D.Disk disk.old disk.new fault) }
    ensures cause { HasInitCause (D.faults disk.old) (D.faults disk.new) result }
{
    match check_empty(disk) {
        Ok(()) => {}
        Err(fault) => return Err(fault),
    }
    let Ok(()) = write_parts(disk, file) else {
        return Err(InitFault::Fault);
    };
    Ok(())
}
