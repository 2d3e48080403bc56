//! A worker at its seat.

ghost use Rattle.std.specs.Prelude.{◌≤◌, length};
ghost use Rattle.served_clients.specs.lines.declared.lines.TheConstants.{MAX_LINE_BYTES};

use batch_pool::Worker;
use no_memory::NoMemory;
use outside_io::{Between, Disk};
use rail_types::Name;
use served_clients::admission::Rule;
use served_clients::bytes::Buffer;
use served_clients::client_seats::Seat;
use served_clients::lines::reply_texts::Reply;
use served_clients::sessions::Desk;
use std::alloc::Global;
use std::sync::Wait;

/// A worker at its seat, and how many lines it was asked. The text of its last reply stands in a
/// buffer, and no proof goes along with it.
#[derive(Drop)]
pub(crate) struct Clerk<'a, D: Disk, B: Between, L: Rule> {
    pub(crate) alloc: Global,
    pub(crate) name: Name,
    pub(crate) seat: Seat<'a, D, B, L>,
    pub(crate) text: Buffer,
    pub(crate) proof: Buffer,
    pub(crate) asked: u32,
}

impl<'a, D: Disk + Send, B: Between + Send + Drop, L: Rule + Send + Drop> Worker
    for Clerk<'a, D, B, L> {
    type Reply = Reply;

    ghost use Rattle.batch_command.specs.Clerks.{Answers, IsSound, lines_left};

    ghost gives = { λ old at text told new. Answers L.Rule old text told new };

    ghost left = { λ clerk. lines_left clerk };

    ghost is_sound = { λ clerk. IsSound clerk };

    ghost is_line = { λ text. length text ≤ MAX_LINE_BYTES };

    fn answer<R: Wait>(&mut self, rt: &R, at: u32, text: &[u8]) -> Reply {
        self.text.clear();
        self.asked += 1;
        let told = self.seat.answer(
            rt,
            self.alloc,
            self.asked,
            text,
            &mut self.text,
            &mut self.proof,
        );
        match told {
            Ok(reply) => reply,
            Err(NoMemory) => Reply::NoMemory,
        }
    }
}
