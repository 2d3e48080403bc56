//! One worker, which answers what it takes until the queue is empty.

ghost use Rattle.std.specs.Prelude.{◌≡◌, ◌+◌, ◌<◌, ◌≤◌, ℕ, All, length, vec_capacity};
ghost use Rattle.crossbeam_queue.specs.Passes.{IsPassOf};
ghost use Rattle.batch_pool.specs.Batches.{Leads, places};
ghost use Rattle.batch_pool.specs.Hands.{knows, weigh};
ghost use Rattle.batch_pool.specs.Shifts.{lines_of};

use crate::hands::{Hand, Line, Takes};
use crate::workers::Worker;
use crossbeam_queue::Pass;
use rail_types::Name;
use std::sync::Wait;

/// A worker, with room for its answers.
#[derive(Drop)]
pub(crate) struct Shift<W: Worker> {
    pub(crate) worker: W,
    pub(crate) answers: Vec<(u32, W::Reply)>,
}

/// Answers what it takes, until the queue is found empty.
pub(crate) fn work<R: Wait, W: Worker>(
    rt: &R,
    line: &Line,
    lines: &[Name],
    pass: &mut Pass<u32, Hand>,
    shift: &mut Shift<W>,
)
    requires texts { All W.is_line lines.now }
    requires sound { W.is_sound shift.old.worker }
    requires pass { IsPassOf line.now pass.old × (0 < (knows pass.old).parts) }
    requires below { All (λ at. at < length lines.now) (knows pass.old).put }
    requires counts { length shift.old.answers.items ≤ length (knows pass.old).taken }
    requires room { length (knows pass.old).put ≤ vec_capacity shift.old.answers }
    requires left { length (knows pass.old).put ≤ lines_of W.left shift.old }
    ensures sound { W.is_sound shift.new.worker }
    ensures pass { IsPassOf line.now pass.new }
    ensures parts { (knows pass.new).parts ≡ (knows pass.old).parts }
    ensures put { (knows pass.new).put ≡ (knows pass.old).put }
    ensures counts { length shift.new.answers.items ≤ length (knows pass.new).taken }
    ensures room { vec_capacity shift.new.answers ≡ vec_capacity shift.old.answers }
    ensures left { lines_of W.left shift.old ≤ lines_of W.left shift.new }
    // What was taken meanwhile is what was answered meanwhile.
    ensures taken { (h : ℕ → ℕ) → weigh h (knows pass.new).taken
        + weigh h (places shift.old.answers.items)
        ≡ weigh h (knows pass.old).taken + weigh h (places shift.new.answers.items) }
    ensures leads { (first : W)
        → Leads W.gives lines.now first shift.old.answers.items shift.old.worker
        → Leads W.gives lines.now first shift.new.answers.items shift.new.worker }
    ensures all { (knows pass.old).parts ≡ 1024
        → (h : ℕ → ℕ) → weigh h (knows pass.new).put ≡ weigh h (knows pass.new).taken }
{
    for _ in rt.forever() {
        let Some(at) = line.pop_as::<Takes, R>(rt, pass) else {
            return;
        };
        let reply = shift.worker.answer(rt, at, lines[at as usize].as_bytes());
        shift.answers.push_reserved((at, reply));
    }
    unreachable!()
}
