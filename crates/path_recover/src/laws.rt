//! What a crash leaves of a book, opened again.

ghost use Rattle.std.specs.Prelude.{◌≡◌, IfErr, IfOk};
ghost use Rattle.rail_types.specs.Timetables.{IsTimetable, timetable_of};
ghost use Rattle.path_recover.specs.Failing.{HasFaultCause, IsUnread};
ghost use Rattle.path_commit.specs.Runs.{AreInRange, AreTurns, Grows};
ghost use Rattle.path_recover.specs.Crashes.{IsOfFiles, IsReopened, KeepsDone, WasLeft};
ghost use Rattle.path_recover.specs.Opening.{IsJustMade};

use crate::history_reading::one_reading;
use crate::journal_reading::OpenFault;
use crate::open;
use no_memory::NoMemory;
use outside_io::Disk;
use path_commit::{Book, Committed, Sent, run_all};
use rail_types::{Base, Network};
use std::alloc::Global;

/// Opens a disk, for the files of a book. If its bytes are what a crash of the book's disk
/// left, at some moment since the book was made, a prefix of the book's history is opened,
/// which has each entry that was settled before that moment; and it is refused for want of
/// memory or for a fault of the disk alone.
pub fn reopen<D: Disk, E: Disk>(
    alloc: Global,
    book: &Book<D>,
    left: E,
    net: &Network,
    base: Base,
    network: &[u8; 32],
    base_digest: &[u8; 32],
) -> Result<Book<E>, (E, OpenFault)>
    requires timetable { IsTimetable (timetable_of net.now base) }
    requires files { IsOfFiles (timetable_of net.now base) network.now base_digest.now book.now }
    ensures opened { IfOk result (λ opened.
        IsReopened D.Disk book.now (E.contents left) opened.entries) }
    ensures made { IfOk result (λ opened. IsJustMade E.Disk (timetable_of net.now base)
        network.now base_digest.now opened) }
    ensures cause { IfErr result (λ refused.
        HasFaultCause (E.faults left) (E.faults refused.0) refused.1) }
    ensures refused { IfErr result (λ refused.
        WasLeft D.Disk book.now.disk book.now.made (E.contents left) → IsUnread refused.1) }
{
    one_reading();
    book.keeps();
    match open(alloc, left, net, base, network, base_digest) {
        Ok(opened) => Ok(opened),
        Err(refused) => Err(refused),
    }
}

/// Many turns on a book, each answered as it came, whatever its disk does in them, and then a disk
/// that is opened. If its bytes are what a crash of the book's disk left, a prefix of the book's
/// history is opened, which has each entry that was told done before that crash.
pub fn run_and_reopen<D: Disk, E: Disk>(
    alloc: Global,
    book: &mut Book<D>,
    sent: &[Sent],
    left: E,
    net: &Network,
    base: Base,
    network: &[u8; 32],
    base_digest: &[u8; 32],
) -> Result<(Vec<Committed>, Result<Book<E>, (E, OpenFault)>), (E, NoMemory)>
    requires timetable { IsTimetable (timetable_of net.now base) }
    requires files { IsOfFiles (timetable_of net.now base) network.now base_digest.now book.old }
    requires range { AreInRange book.old.timetable sent.now }
    ensures grows { Grows book.old book.new }
    ensures turns { IfOk result (λ ended.
        AreTurns D.Disk book.old sent.now ended.0.items book.new) }
    ensures opened { IfOk result (λ ended. IfOk ended.1 (λ opened.
        IsReopened D.Disk book.new (E.contents left) opened.entries)) }
    ensures made { IfOk result (λ ended. IfOk ended.1 (λ opened. IsJustMade E.Disk
        (timetable_of net.now base) network.now base_digest.now opened)) }
    ensures done { IfOk result (λ ended. IfOk ended.1 (λ opened. KeepsDone D.Disk book.new
        (E.contents left) sent.now ended.0.items opened.entries)) }
    ensures refused { IfOk result (λ ended. IfErr ended.1 (λ refused.
        WasLeft D.Disk book.new.disk book.new.made (E.contents left) → IsUnread refused.1)) }
{
    let Ok(answers) = run_all(alloc, book, sent) else {
        return Err((left, NoMemory));
    };
    let opened = reopen(alloc, book, left, net, base, network, base_digest);
    Ok((answers, opened))
}
