ghost use Rattle.std.specs.Prelude.{◌≡◌, ◌+◌, ◌≤◌, ℕ, List, IfErr, IfOk, IfSome};
ghost use Rattle.rail_types.specs.declared.entries.Entry.{Entry as entry_type};
ghost use Rattle.rail_types.specs.Timetables.{IsTimetable, timetable_of};
ghost use Rattle.path_recover.specs.Failing.{HasFaultCause, IsOnlyRead, IsUnread};
ghost use Rattle.path_recover.specs.Files.{IsRefused, TellsHistory};
ghost use Rattle.path_recover.specs.Opening.{IsJustMade, IsSynced};

use crate::history_reading::{Found, one_reading, read_journal};
use crate::journal_reading::OpenFault;
use grant_journal::Journal;
use grant_log::History;
use outside_io::Disk;
use path_commit::Book;
use rail_types::{Base, Network};
use std::alloc::Global;

// The version of a journal that is opened to go on with.
const VERSION: u32 = 2;

/// Opens a journal for a network's file and a base timetable's file with these SHA-256 digests: a
/// sync, and one pass over the bytes, in which each entry is judged by those before it. Nothing is
/// written, and a refusal hands the disk back.
pub fn open<D: Disk>(
    alloc: Global,
    disk: D,
    net: &Network,
    base: Base,
    network: &[u8; 32],
    base_digest: &[u8; 32],
) -> Result<Book<D>, (D, OpenFault)>
    requires { IsTimetable (timetable_of net.now base) }
    ensures made { IfOk result (λ book. IsJustMade D.Disk (timetable_of net.now base)
        network.now base_digest.now book) }
    ensures tells { IfOk result (λ book. IfSome (D.contents disk) (λ file. TellsHistory
        (timetable_of net.now base) 2 network.now base_digest.now file book.entries)) }
    ensures synced { IfOk result (λ book. IsSynced D.Disk disk book.disk) }
    ensures read { IfOk result (λ book. IsOnlyRead D.Disk disk book.disk) }
    ensures tick { IfOk result (λ book. D.clock book.disk ≤ D.clock disk + 1) }
    ensures quiet { IfOk result (λ book. D.faults book.disk ≡ D.faults disk) }
    ensures refused { IfErr result (λ refused. IfSome (D.contents disk) (λ file. IsRefused
        (timetable_of net.now base) 2 network.now base_digest.now file refused.1)) }
    ensures whole { IfErr result (λ refused. IfSome (D.contents disk) (λ file.
        (entries : List entry_type) → TellsHistory (timetable_of net.now base) 2
        network.now base_digest.now file entries → IsUnread refused.1)) }
    ensures read_back { IfErr result (λ refused. IsOnlyRead D.Disk disk refused.0) }
    ensures tick_back { IfErr result (λ refused. D.clock refused.0 ≤ D.clock disk + 1) }
    ensures cause { IfErr result (λ refused.
        HasFaultCause (D.faults disk) (D.faults refused.0) refused.1) }
{
    one_reading();
    let mut disk = disk;
    let Ok(net) = net.copy(alloc) else {
        return Err((disk, OpenFault::Memory));
    };
    let empty = History::new(alloc, net, base);
    let read = read_journal(alloc, &mut disk, empty, VERSION, network, base_digest);
    let Found {
        history,
        claims,
        gate,
    } = match read {
        Ok(found) => found,
        Err(fault) => return Err((disk, fault)),
    };
    let journal = Journal::at(disk, gate);
    let book = Book::of(alloc, history, claims, *network, *base_digest, journal);
    Ok(book)
}
