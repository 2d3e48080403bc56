//! All places are put into the queue before a worker starts.

ghost use Rattle.std.specs.Prelude.{◌≡◌, []};
ghost use Rattle.crossbeam_queue.specs.Passes.{IsPassOf};
ghost use Rattle.batch_pool.specs.Hands.{hand, knows};

use crate::hands::{Hand, Line, Puts};
use crossbeam_queue::Pass;
use std::sync::Wait;
use std::thread;

/// Puts all places. The queue has room for them, so no attempt but the first is made.
pub(crate) fn put_all<R: Wait>(
    rt: &R,
    line: &Line,
    mut pass: Pass<u32, Hand>,
    todo: &[u32],
) -> Pass<u32, Hand>
    requires { IsPassOf line.now pass × (knows pass ≡ hand 1024 [] []) }
    ensures { IsPassOf line.now result × (knows result ≡ hand 1024 todo.now []) }
{
    let mut next = 0;
    for _ in rt.forever() {
        if next >= todo.len() {
            break;
        }
        match line.try_push_as::<Puts>(&mut pass, todo[next]) {
            Ok(()) => next += 1,
            Err(_) => thread::yield_now(),
        }
    }
    pass
}
