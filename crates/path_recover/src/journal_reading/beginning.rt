ghost use Rattle.std.specs.Prelude.{◌≡◌, ◌∷◌, ◌++◌, [], ℕ, List, Some, IfErr, IfSome, OnErr, OnOk};
ghost use Rattle.std.specs.Prelude.{length};
ghost use Rattle.outside_io.specs.Disks.{Spans};
ghost use Rattle.grant_journal.specs.Headers.{header_of};
ghost use Rattle.grant_journal.specs.Histories.{ReadsAs};
ghost use Rattle.path_recover.specs.declared.journal_reading.beginning.TheConstants.{
  BEGINNING_BYTES,
};
ghost use Rattle.path_recover.specs.Beginning.{HasInitCause, IsNotEmpty, IsUntouched, WasEmpty};

use grant_journal::journal_text::{HEADER_BYTES, header};
use outside_io::Disk;

/// The length of a journal without entries: its header and a closed gate.
pub const BEGINNING_BYTES: usize = HEADER_BYTES + 1;

/// Why a journal is not begun.
#[derive(Clone, Copy, Debug, PartialEq, Eq)]
pub enum InitFault {
    /// The disk has so many bytes.
    NotEmpty { len: u64 },
    /// The disk failed. If it was empty, it may have any bytes now; if not, it is as it was.
    Fault,
}

/// Begins a journal on an empty disk, for a network's file and a base timetable's file with these
/// digests: the header and a closed gate, in one write, and a sync. It takes no memory.
pub fn init<D: Disk>(disk: &mut D, network: &[u8; 32], base: &[u8; 32]) -> Result<(), InitFault>
    ensures reads { OnOk result ((image : List ℕ) → D.images disk.new image →
        ReadsAs (header_of network.now base.now) [] image) }
    ensures contents { OnOk result (IfSome (D.contents disk.new)
        (λ file. ReadsAs (header_of network.now base.now) [] file)) }
    ensures exact { OnOk result ((image : List ℕ) → D.images disk.new image →
        image ≡ header_of network.now base.now ++ 0 ∷ []) }
    ensures exact_now { OnOk result (IfSome (D.contents disk.new)
        (λ file. file ≡ header_of network.now base.now ++ 0 ∷ [])) }
    ensures size { OnOk result (IfSome (D.contents disk.new)
        (λ file. length file ≡ BEGINNING_BYTES)) }
    ensures empty { OnOk result (WasEmpty D.Disk disk.old) }
    ensures refused { IfErr result (λ fault. IfSome (D.contents disk.old) (IsNotEmpty fault)) }
    ensures untouched { IfErr result (λ fault. IsUntouched D.Disk disk.old disk.new fault) }
    ensures cause { HasInitCause (D.faults disk.old) (D.faults disk.new) result }
{
    let Ok(len) = disk.len() else {
        return Err(InitFault::Fault);
    };
    if len != 0 {
        return Err(InitFault::NotEmpty { len });
    }
    let first = begun(network, base);
    let Ok(()) = disk.write_at(0, &first) else {
        return Err(InitFault::Fault);
    };
    let Ok(()) = disk.sync() else {
        return Err(InitFault::Fault);
    };
    Ok(())
}

// The header and a closed gate.
fn begun(network: &[u8; 32], base: &[u8; 32]) -> [u8; BEGINNING_BYTES]
    ensures { result ≡ header_of network.now base.now ++ 0 ∷ [] }
{
    let mut first = [0u8; BEGINNING_BYTES];
    first[..HEADER_BYTES].copy_from_slice(&header(network, base));
    first
}
