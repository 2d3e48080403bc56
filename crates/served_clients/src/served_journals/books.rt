//! The book of a journal.

ghost use Rattle.std.specs.Prelude.{◌≡◌, IfErr, IfOk, length};
ghost use Rattle.client_lines.specs.Within.{AreSound};
ghost use Rattle.line_answers.specs.book.Ledgers.{settled_of};
ghost use Rattle.served_clients.specs.Files.{AreFiles, names_of};
ghost use Rattle.served_clients.specs.ServedJournals.{HasNoBook, IsClosed, IsFound};

use crate::served_journals::files::Files;
use crate::served_journals::refusals::journal_refusal;
use command_files::train::Trains;
use command_files::{BaseFile, NetworkFile};
use command_reports::Refusal;
use line_answers::book::Book;
use outside_io::Disk;
use path_recover::open;
use rail_types::named_network::Named;
use std::alloc::Global;

/// A book that was opened, and what lines may name.
#[derive(Drop)]
pub struct Opened<D: Disk> {
    pub book: Book<D>,
    pub named: Named,
    pub trains: Trains,
}

/// Opens the journal of the files on a disk. A refusal hands the disk back, and tells the
/// journal's name or its fault.
pub fn open_book<D: Disk>(
    alloc: Global,
    disk: D,
    files: Files,
    name: &str,
) -> Result<Opened<D>, (D, Refusal)>
    requires files { AreFiles files }
    ensures found { IfOk result (λ opened. IsFound D.Disk files disk opened.book) }
    ensures named { IfOk result (λ opened. opened.named ≡ files.network.named) }
    ensures trains { IfOk result (λ opened. opened.trains ≡ files.trains) }
    ensures settled { IfOk result (λ opened. settled_of opened.book ≡ length opened.book.entries) }
    ensures sound { IfOk result (λ opened. AreSound (names_of opened.named opened.trains)) }
    ensures network { IfOk result (λ opened.
        opened.named.network ≡ opened.book.timetable.net) }
    ensures refused { IfErr result (λ e. HasNoBook D.Disk files name.now disk e.0 e.1) }
{
    let Files {
        network,
        base,
        trains,
    } = files;
    let NetworkFile {
        named,
        digest: network_digest,
    } = network;
    let BaseFile {
        base,
        digest: base_digest,
    } = base;
    let net = &named.network;
    match open(alloc, disk, net, base, &network_digest, &base_digest) {
        Ok(book) => Ok(Opened {
            book,
            named,
            trains,
        }),
        Err((disk, fault)) => Err((disk, journal_refusal(alloc, name, &fault))),
    }
}

/// Hands back the disk of a book.
pub fn close_book<D: Disk>(book: Book<D>) -> D
    ensures closed { IsClosed D.Disk book result }
{
    book.close()
}
