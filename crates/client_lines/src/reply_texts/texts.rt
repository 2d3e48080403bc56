//! The texts of replies.

ghost use Rattle.std.specs.Prelude.{◌≡◌, ◌+◌, ◌≤◌, ◌++◌, length, IsOk, OnErr, OnOk};
ghost use Rattle.client_lines.specs.Fields.{Writes};
ghost use Rattle.client_lines.specs.Replies.{reply_text};

use crate::reply_texts::parts::Part::{By, Deed, Named, Number, Rule, Runs, Said, State};
use crate::reply_texts::parts::print_line;
use crate::reply_texts::replies::Reply;
use byte_fields::Buffer;
use no_memory::NoMemory;

/// Appends the text of a reply, one line with its end. Where there is room for it, no memory is
/// taken; where memory is wanted, what stood there stands there alone.
pub fn reply_text(reply: &Reply, to: &mut Buffer) -> Result<(), NoMemory>
    ensures ok { OnOk result (to.new.held ≡ to.old.held ++ reply_text reply.now) }
    ensures err { OnErr result (to.new.held ≡ to.old.held) }
    ensures room { length (reply_text reply.now) ≤ to.old.spare → IsOk result }
    ensures spare { to.old.spare ≤ to.new.spare + length (reply_text reply.now) }
{
    let before = to.len();
    let Ok(()) = print_reply(reply, to) else {
        to.truncate(before);
        return Err(NoMemory);
    };
    Ok(())
}

// The table of replies: each with its first word, and the parts behind it.
fn print_reply(reply: &Reply, to: &mut Buffer) -> Result<(), NoMemory>
    ensures { Writes (reply_text reply.now) to.old to.new result }
{
    match reply {
        Reply::Held {
            number,
            entry,
            front,
        } => print_line(
            b"held",
            &[Number(*number), Said(b"entry", *entry), Said(b"at", *front)],
            to,
        ),
        Reply::Pinned {
            number,
            entry,
            front,
        } => print_line(
            b"pinned",
            &[Number(*number), Said(b"entry", *entry), Said(b"at", *front)],
            to,
        ),
        Reply::Granted {
            number,
            entry,
            front,
            runs,
        } => print_line(
            b"granted",
            &[
                Number(*number),
                Said(b"entry", *entry),
                Said(b"at", *front),
                Runs(runs),
            ],
            to,
        ),
        Reply::Freed {
            number,
            entry,
            freed,
            front,
        } => print_line(
            b"freed",
            &[
                Number(*number),
                Said(b"entry", *entry),
                Said(b"of", *freed),
                Said(b"at", *front),
            ],
            to,
        ),
        Reply::Kept {
            number,
            entry,
            front,
            deed,
        } => print_line(
            b"kept",
            &[
                Number(*number),
                Said(b"entry", *entry),
                Said(b"at", *front),
                Deed(deed),
            ],
            to,
        ),
        Reply::Shown {
            at,
            front,
            entry,
            freed_by,
        } => print_line(
            b"shown",
            &[
                Number(*at),
                Said(b"at", *front),
                Named(b"owner", &entry.owner),
                Said(b"number", entry.number),
                Deed(&entry.deed),
                State(&entry.deed, freed_by),
            ],
            to,
        ),
        Reply::Front { front } => print_line(b"front", &[Said(b"at", *front)], to),
        Reply::Bad { field } => print_line(b"bad", &[Number(u64::from(*field))], to),
        Reply::Denied {
            number,
            rule,
            front,
        } => print_line(
            b"denied",
            &[Number(*number), Rule(*rule), Said(b"at", *front)],
            to,
        ),
        Reply::Ahead { after, front } => print_line(
            b"ahead",
            &[Number(*after), Said(b"at", *front)],
            to,
        ),
        Reply::Other {
            number,
            entry,
            front,
        } => print_line(
            b"other",
            &[Number(*number), Said(b"entry", *entry), Said(b"at", *front)],
            to,
        ),
        Reply::Gone {
            number,
            entry,
            freed_by,
            front,
        } => print_line(
            b"gone",
            &[
                Number(*number),
                Said(b"entry", *entry),
                Said(b"by", *freed_by),
                Said(b"at", *front),
            ],
            to,
        ),
        Reply::Taken {
            number,
            zone,
            owner,
            front,
        } => print_line(
            b"taken",
            &[
                Number(*number),
                Said(b"zone", u64::from(*zone)),
                By(*owner),
                Said(b"at", *front),
            ],
            to,
        ),
        Reply::Breaks {
            number,
            run,
            rule,
            front,
        } => print_line(
            b"breaks",
            &[
                Number(*number),
                Said(b"run", u64::from(*run)),
                Said(b"rule", u64::from(*rule)),
                Said(b"at", *front),
            ],
            to,
        ),
        Reply::NoPath { number, front } => print_line(
            b"no-path",
            &[Number(*number), Said(b"at", *front)],
            to,
        ),
        Reply::Again {
            number,
            entry,
            searched,
            front,
        } => print_line(
            b"again",
            &[
                Number(*number),
                Said(b"entry", *entry),
                Said(b"searched", *searched),
                Said(b"at", *front),
            ],
            to,
        ),
        Reply::Unknown { entry, front } => print_line(
            b"unknown",
            &[Number(*entry), Said(b"at", *front)],
            to,
        ),
        Reply::NotYours {
            number,
            entry,
            owner,
            front,
        } => print_line(
            b"not-yours",
            &[
                Number(*number),
                Said(b"entry", *entry),
                Named(b"owner", owner),
                Said(b"at", *front),
            ],
            to,
        ),
        Reply::AlreadyFreed {
            number,
            entry,
            freed_by,
            front,
        } => print_line(
            b"already-freed",
            &[
                Number(*number),
                Said(b"entry", *entry),
                Said(b"by", *freed_by),
                Said(b"at", *front),
            ],
            to,
        ),
        Reply::Wide { number, front } => print_line(
            b"wide",
            &[Number(*number), Said(b"at", *front)],
            to,
        ),
        Reply::Full { number, front } => print_line(
            b"full",
            &[Number(*number), Said(b"at", *front)],
            to,
        ),
        Reply::Unsettled {
            number,
            entry,
            front,
        } => print_line(
            b"unsettled",
            &[Number(*number), Said(b"entry", *entry), Said(b"at", *front)],
            to,
        ),
        Reply::DiskFault => print_line(b"disk-fault", &[], to),
        Reply::NoMemory => print_line(b"no-memory", &[], to),
    }
}
