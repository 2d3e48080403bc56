//! Where the proofs of a client's replies go.

ghost use Rattle.std.specs.Prelude.{◌≡◌, ◌<◌, length, take, IfErr, OnOk};
ghost use Rattle.std.specs.Io.KnownBytes.{Appends};
ghost use Rattle.outside_io.specs.Stops.{StopsAt};
ghost use Rattle.line_sessions.specs.Proofs.{faults_by, held_by, is_wanted};

use outside_io::{Sink, Stopped, write_all};

/// What becomes of the texts of proofs.
#[derive(Drop)]
pub enum Proofs<T: Sink> {
    /// Nobody wants them.
    Unwanted,
    /// They go into this sink.
    To(T),
}

impl<T: Sink> Proofs<T> {
    /// Whether there is a sink for them.
    pub fn is_wanted(&self) -> bool
        ensures { result ≡ is_wanted self.now }
    {
        match self {
            Proofs::Unwanted => false,
            Proofs::To(_) => true,
        }
    }

    // Puts the text of a proof into the sink, if there is one. `Stopped` comes only where that sink
    // failed in this call, and it then took the first `taken` bytes.
    pub(crate) fn put(&mut self, text: &[u8]) -> Result<(), Stopped>
        ensures all { OnOk result
            (Appends (held_by T.held self.old) (held_by T.held self.new) text.now) }
        ensures quiet { OnOk result (faults_by T.faults self.new ≡ faults_by T.faults self.old) }
        ensures part { IfErr result (λ stop. stop.taken < length text.now) }
        ensures stopped { IfErr result (λ stop. StopsAt (held_by T.held) (faults_by T.faults)
            self.old self.new (take stop.taken text.now)) }
        ensures wanted { is_wanted self.new ≡ is_wanted self.old }
    {
        match self {
            Proofs::Unwanted => Ok(()),
            Proofs::To(sink) => write_all(sink, text),
        }
    }
}
