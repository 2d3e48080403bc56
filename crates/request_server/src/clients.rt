//! One client at its seat.

ghost use Rattle.std.specs.Prelude.{◌≡◌};
ghost use Rattle.served_clients.specs.Seats.{AnswersAt, IsSeated, IsTaken};
ghost use Rattle.line_sessions.specs.Ends.{Ends, scene, streams};
ghost use Rattle.line_sessions.specs.Proofs.{is_wanted};
ghost use Rattle.request_server.specs.Runs.{IsSession};

use admission_rules::Rule;
use line_answers::Shared;
use line_sessions::{Ended, Proofs, serve_lines};
use outside_io::{Between, Disk, Sink, Source};
use served_clients::client_seats::Seat;
use std::alloc::Global;
use std::sync::Wait;

/// Serves one client at its seat at the gate that all clients share: each line of the source
/// is answered, one after another, by the client's rules as they stand then, and the sink
/// gets each reply. Where proofs are wanted their sink gets the proof of a reply before that
/// reply is written. The seat was taken, and has answered nothing yet; its rules are told
/// each entry that is added for a line.
pub fn serve_client<'a, R: Wait, D: Disk, S: Source, T: Sink, B: Between + Drop, L: Rule>(
    rt: &R,
    alloc: Global,
    shared: &Shared<D>,
    seat: &mut Seat<'a, D, B, L>,
    source: &mut S,
    sink: &mut T,
    proofs: &mut Proofs<T>,
) -> Ended
    requires taken { IsTaken shared.now seat.old }
    requires proves { seat.old.guest.proves ≡ is_wanted proofs.old }
    ensures seated { IsSeated seat.new }
    ensures answered { Ends (AnswersAt L.Rule) (streams S.left S.faults T.held T.faults) result
        (scene seat.old source.old sink.old proofs.old)
        (scene seat.new source.new sink.new proofs.new) }
    // By what the pass of the seat has seen at the end, the session is one with the history.
    ensures session { IsSession L.Rule shared.now (streams S.left S.faults T.held T.faults) result
        (scene seat.old source.old sink.old proofs.old)
        (scene seat.new source.new sink.new proofs.new) }
{
    serve_lines(rt, alloc, seat, source, sink, proofs)
}
