//! The journal of the demo, in memory.

ghost use Rattle.std.specs.Prelude.{◌≡◌, [], length, IfOk};
ghost use Rattle.served_clients.specs.book.Ledgers.{settled_of};
ghost use Rattle.demo_command.specs.Railways.{demo_network, demo_timetable};

use crate::railways::base;
use no_memory::NoMemory;
use outside_io::MemDisk;
use path_recover::history_reading::one_reading;
use path_recover::{init, open};
use rail_types::Network;
use served_clients::book::Book;
use std::alloc::Global;

/// How many bytes a disk or a sink of the demo has room for.
pub(crate) const ROOM: usize = 4_194_304;

// Nothing else opens the journal, so any digests will do.
const DIGEST: [u8; 32] = [0; 32];

/// The book of an empty journal, on a disk none of whose calls is listed to fail.
pub(crate) fn empty_book(alloc: Global, net: &Network) -> Result<Book<MemDisk>, NoMemory>
    requires { net.now ≡ demo_network }
    ensures timetable { IfOk result (λ book. book.timetable ≡ demo_timetable) }
    ensures empty { IfOk result (λ book. book.entries ≡ []) }
    ensures settled { IfOk result (λ book. settled_of book ≡ length book.entries) }
{
    one_reading();
    let mut disk = MemDisk::new(alloc, Vec::new(alloc), ROOM, Vec::new(alloc))?;
    let Ok(()) = init(&mut disk, &DIGEST, &DIGEST) else {
        return Err(NoMemory);
    };
    match open(alloc, disk, net, base(alloc), &DIGEST, &DIGEST) {
        Ok(book) => Ok(book),
        Err((_disk, _fault)) => Err(NoMemory),
    }
}
