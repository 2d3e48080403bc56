//! The replies, written.

ghost use Rattle.std.specs.Prelude.{◌≤◌, length};
ghost use Rattle.batch_command.specs.Writing.{Writes};
ghost use Rattle.served_clients.specs.sessions.declared.sessions.TheConstants.{MAX_LINES};

use outside_io::{Sink, write_all};
use rail_types::List;
use served_clients::sessions::{Ended, Why};

/// Writes the texts of replies, one after another, and tells how many of them the sink took whole,
/// and what ended it: all were taken, or the sink failed.
pub fn write_texts<T: Sink>(texts: &[List<u8>], sink: &mut T) -> Ended
    requires { length texts.now ≤ MAX_LINES }
    ensures { Writes T.Sink texts.now sink.old sink.new result }
{
    let mut lines = 0;
    for text in texts {
        let Ok(()) = write_all(sink, text.as_slice()) else {
            return Ended {
                lines,
                why: Why::WriteFault,
            };
        };
        lines += 1;
    }
    Ended {
        lines,
        why: Why::Input,
    }
}
