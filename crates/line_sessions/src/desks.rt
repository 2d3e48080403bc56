//! Who answers the lines of a client.

ghost use Rattle.std.specs.Prelude.{◌≡◌, ◌+◌, ◌++◌, ◌≤◌, [], ℕ, List, length, IfOk, OnErr};
ghost use Rattle.client_lines.specs.declared.lines.TheConstants.{MAX_LINE_BYTES};
ghost use Rattle.client_lines.specs.Replies.{reply_text};
ghost use Rattle.client_lines.specs.declared.reply_texts.replies.Reply.{Reply as reply_type};
ghost use Rattle.client_lines.specs.declared.reply_texts.replies.Reply.TheVariants as reply;

use byte_fields::Buffer;
use client_lines::reply_texts::Reply;
use no_memory::NoMemory;
use std::alloc::Global;
use std::sync::Wait;

/// Answers the lines of one client, one after another.
pub trait Desk {
    /// A line of this number, counted from 1, was told this reply, with a proof of this text, which
    /// took the desk from one state to the other.
    ghost answers: { Self → ℕ → List ℕ → reply_type → List ℕ → Self → Type 0 };

    /// How many lines it may still be asked at least.
    ghost lines_left: { Self → ℕ };

    /// What it needs before an answer, and keeps.
    ghost is_sound: { Self → Type 0 };

    /// Answers a line, and appends the reply's text. The text of the reply's proof takes the
    /// place of what `proof` held; it is empty where the reply has no proof. Where memory is
    /// wanted the reply's text is as before.
    fn answer<R: Wait>(
        &mut self,
        rt: &R,
        alloc: Global,
        line_number: u32,
        line: &[u8],
        text: &mut Buffer,
        proof: &mut Buffer,
    ) -> Result<Reply, NoMemory>
        requires left { 1 ≤ lines_left self.old }
        requires sound { is_sound self.old }
        requires line { length line.now ≤ MAX_LINE_BYTES }
        ensures sound { is_sound self.new }
        ensures left { lines_left self.old ≤ lines_left self.new + 1 }
        ensures told { IfOk result
            (λ told. answers self.old line_number line.now told proof.new.held self.new) }
        ensures text { IfOk result (λ told. text.new.held ≡ text.old.held ++ reply_text told) }
        ensures wanted { OnErr result
            (answers self.old line_number line.now reply.NoMemory [] self.new) }
        ensures no_text { OnErr result (text.new.held ≡ text.old.held) };
}
