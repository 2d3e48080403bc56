//! What the gate may know of a book.

ghost use Rattle.path_commit.specs.Footings.{footing_of};
ghost use Rattle.path_commit.specs.Ledgers.{settled_of};

use crate::Book;
use book_gate::Stands;
use outside_io::Disk;
use rail_types::{Base, Entry, Network};

/// What no turn changes of a book: the network, the base timetable, the digests of both
/// files, what the disk's clock said when the book was made, and how many entries there were
/// then. No value of it is ever made.
#[derive(Debug, Drop)]
pub struct Footing {
    pub net: Network,
    pub base: Base,
    pub network_digest: [u8; 32],
    pub base_digest: [u8; 32],
    pub made: u64,
    pub found: u64,
}

/// A book stands for its history. Its settled number is that of its entries, less one where the
/// last is pending, and its count is that of its disk's faults.
impl<D: Disk> Stands for Book<D> {
    type Entry = Entry;

    type Footing = Footing;

    ghost footing = { λ b. footing_of b };

    ghost list = { λ b. b.entries };

    ghost settled = { λ b. settled_of b };

    ghost count = { λ b. D.faults b.disk };
}
