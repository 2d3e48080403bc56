//! Where proofs go.

ghost use Rattle.std.specs.Prelude.{◌≡◌};
ghost use Rattle.request_server.specs.PlannedClients.{sink_in};

use line_sessions::Proofs;
use outside_io::Sink;

/// Proofs into this sink, if there is one.
pub(crate) fn proofs_to<T: Sink>(sink: Option<T>) -> Proofs<T>
    ensures { sink_in result ≡ sink }
{
    match sink {
        None => Proofs::Unwanted,
        Some(sink) => Proofs::To(sink),
    }
}

/// The sink of proofs, where they are wanted.
pub(crate) fn sink_of<T: Sink>(proofs: Proofs<T>) -> Option<T>
    ensures { result ≡ sink_in proofs }
{
    match proofs {
        Proofs::Unwanted => None,
        Proofs::To(sink) => Some(sink),
    }
}
