//! Clients that come to a gate.

ghost use Rattle.std.specs.Prelude.{◌≡◌, IfOk};
ghost use Rattle.served_clients.specs.Gates.{IsNewcomer};
ghost use Rattle.served_clients.specs.Tellings.{told_positions};
ghost use Rattle.rail_types.specs.Limits.{IsClientName};

use crate::client_seats::tellings::{Telling, tellings_of};
use line_answers::book::Book;
use line_answers::turns::client_turns::Client;
use no_memory::NoMemory;
use outside_io::Disk;
use rail_types::Name;
use std::alloc::Global;

/// A client that knows a book as it stands, and what its rules are told of its entries there.
#[derive(Drop)]
pub struct Newcomer {
    #[doc(hidden)]
    pub client: Client,
    #[doc(hidden)]
    pub tellings: Vec<Telling>,
}

impl Newcomer {
    /// A client of this name, by the positions of those entries of which rules may be told.
    pub fn new<D: Disk>(
        alloc: Global,
        book: &Book<D>,
        places: &[u64],
        name: &Name,
    ) -> Result<Newcomer, NoMemory>
        requires named { IsClientName name.now }
        requires places { places.now ≡ told_positions book.now.entries }
        ensures { IfOk result (IsNewcomer book.now.timetable book.now.entries name.now) }
    {
        let tellings = tellings_of(alloc, book.history(), places, name)?;
        let client = Client::new(alloc, name.copy(alloc)?, book)?;
        Ok(Newcomer { client, tellings })
    }
}
