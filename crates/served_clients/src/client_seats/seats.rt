//! A client's seat at the gate.

ghost use Rattle.std.specs.Prelude.{◌/◌};
ghost use Rattle.line_answers.specs.gate.Passes.{turns_left};
ghost use Rattle.served_clients.specs.Seats.{AnswersAt, IsSeated};

use admission_rules::Rule;
use client_lines::reply_texts::Reply;
use line_answers::bytes::Buffer;
use line_answers::turns::Guest;
use line_answers::{Received, Shared, answer_one};
use line_sessions::Desk;
use no_memory::NoMemory;
use outside_io::{Between, Disk};
use std::alloc::Global;
use std::sync::Wait;

/// A client as a guest at the gate that it shares, and its rules.
#[derive(Drop)]
pub struct Seat<'a, D: Disk, B: Between, L: Rule> {
    #[doc(hidden)]
    pub shared: &'a Shared<D>,
    #[doc(hidden)]
    pub guest: Guest<D, B>,
    #[doc(hidden)]
    pub rules: Vec<L>,
}

/// Each line takes at most four turns.
impl<'a, D: Disk, B: Between, L: Rule> Desk for Seat<'a, D, B, L> {
    ghost answers = { λ old number line told proof new.
        AnswersAt L.Rule old number line told proof new };

    ghost lines_left = { λ seat. turns_left seat.guest.pass / 4 };

    ghost is_sound = { λ seat. IsSeated seat };

    fn answer<R: Wait>(
        &mut self,
        rt: &R,
        alloc: Global,
        line_number: u32,
        line: &[u8],
        text: &mut Buffer,
        proof: &mut Buffer,
    ) -> Result<Reply, NoMemory> {
        let received = Received {
            number: line_number,
            bytes: line,
        };
        answer_one(
            rt,
            alloc,
            self.shared,
            &mut self.guest,
            self.rules.as_mut_slice(),
            &received,
            text,
            proof,
        )
    }
}
