//! The session of one client.

ghost use Rattle.std.specs.Prelude.{◌≡◌, ◌≢◌, ◌+◌, ◌<◌, ◌≤◌, length};
ghost use Rattle.client_lines.specs.declared.lines.TheConstants.{MAX_LINE_BYTES};
ghost use Rattle.line_sessions.specs.Ends.{Ends, scene, streams};
ghost use Rattle.line_sessions.specs.Proofs.{faults_by, is_wanted};
ghost use Rattle.line_sessions.specs.Serving.{last_end, SaysAnswered};

use crate::desks::Desk;
use crate::proofs::Proofs;
use crate::streams::{LineReader, More, Step};
use byte_fields::Buffer;
use outside_io::{Sink, Source, write_all};
use std::alloc::Global;
use std::sync::Wait;

/// Most lines of a client.
pub const MAX_LINES: u32 = 100_000;

/// How a session ended.
#[derive(Clone, Copy, Debug, PartialEq, Eq)]
pub struct Ended {
    /// How many replies the sink took whole.
    pub lines: u32,
    /// What ended the session.
    pub why: Why,
}

/// Why a session ended.
#[derive(Clone, Copy, Debug, PartialEq, Eq)]
pub enum Why {
    /// The input was read to its end, and each line was answered.
    Input,
    /// The source failed.
    ReadFault,
    /// The sink of the replies or that of their proofs failed.
    WriteFault,
    /// A line is longer than is allowed.
    LongLine,
    /// There are more lines than are allowed.
    LineCount,
    /// Memory was wanted.
    Memory,
}

/// How answering one line came out.
#[derive(Clone, Copy, Debug, PartialEq, Eq)]
pub(crate) enum Answered {
    /// The sinks took the proof and the reply.
    Whole,
    /// A sink failed before it took the whole of what is its.
    WriteFault,
    /// Memory was wanted for the reply's text.
    Memory,
}

// The texts of a reply and of its proof, whose room serves one line after another.
#[derive(Drop)]
struct Texts {
    reply: Buffer,
    proof: Buffer,
}

/// Serves a client: the desk answers each line of the source, one after another, and the
/// sink gets each reply. Where proofs are wanted their sink gets the proof of a reply
/// before that reply is written.
pub fn serve_lines<R: Wait, K: Desk, S: Source, T: Sink>(
    rt: &R,
    alloc: Global,
    desk: &mut K,
    source: &mut S,
    sink: &mut T,
    proofs: &mut Proofs<T>,
) -> Ended
    requires left { MAX_LINES ≤ K.lines_left desk.old }
    requires sound { K.is_sound desk.old }
    ensures sound { K.is_sound desk.new }
    ensures ended { Ends K.answers (streams S.left S.faults T.held T.faults) result
        (scene desk.old source.old sink.old proofs.old)
        (scene desk.new source.new sink.new proofs.new) }
{
    let Ok(mut reader) = LineReader::new(alloc) else {
        return end_behind(0, Why::Memory);
    };
    let mut texts = Texts {
        reply: Buffer::new(alloc),
        proof: Buffer::new(alloc),
    };
    for before in 0..MAX_LINES {
        match reader.next_line(source) {
            Step::Line => {
                let line = reader.line();
                match answer_line(rt, alloc, desk, before + 1, line, &mut texts, sink, proofs) {
                    Answered::Whole => {}
                    Answered::WriteFault => return end_behind(before, Why::WriteFault),
                    Answered::Memory => return end_behind(before, Why::Memory),
                }
            }
            Step::Last => {
                let line = reader.line();
                let answered = answer_line(
                    rt,
                    alloc,
                    desk,
                    before + 1,
                    line,
                    &mut texts,
                    sink,
                    proofs,
                );
                return end_with(before, answered);
            }
            Step::End => return end_behind(before, Why::Input),
            Step::LongLine => return end_behind(before, Why::LongLine),
            Step::ReadFault => return end_behind(before, Why::ReadFault),
            Step::Memory => return end_behind(before, Why::Memory),
        }
    }
    match reader.has_more(source) {
        More::Bytes => end_behind(MAX_LINES, Why::LineCount),
        More::Nothing => end_behind(MAX_LINES, Why::Input),
        More::Failed => end_behind(MAX_LINES, Why::ReadFault),
    }
}

fn end_behind(lines: u32, why: Why) -> Ended
    ensures { result ≡ record { lines = lines; why = why } }
{
    Ended { lines, why }
}

// How a session ends with its last line.
fn end_with(before: u32, answered: Answered) -> Ended
    requires { before < MAX_LINES }
    ensures { result ≡ last_end before answered }
{
    match answered {
        Answered::Whole => end_behind(before + 1, Why::Input),
        Answered::WriteFault => end_behind(before, Why::WriteFault),
        Answered::Memory => end_behind(before, Why::Memory),
    }
}

// Answers one line, and writes the proof, where it is wanted, and then the reply.
fn answer_line<R: Wait, K: Desk, T: Sink>(
    rt: &R,
    alloc: Global,
    desk: &mut K,
    line_number: u32,
    line: &[u8],
    texts: &mut Texts,
    sink: &mut T,
    proofs: &mut Proofs<T>,
) -> Answered
    requires left { 1 ≤ K.lines_left desk.old }
    requires sound { K.is_sound desk.old }
    requires line { length line.now ≤ MAX_LINE_BYTES }
    ensures sound { K.is_sound desk.new }
    ensures left { K.lines_left desk.old ≤ K.lines_left desk.new + 1 }
    ensures answered { SaysAnswered K.answers T.held T.faults result
        desk.old line_number line.now desk.new sink.old sink.new proofs.old proofs.new }
    ensures wanted { is_wanted proofs.new ≡ is_wanted proofs.old }
    ensures quiet { result ≢ Answered.WriteFault → T.faults sink.new ≡ T.faults sink.old }
    ensures proofs_quiet { result ≢ Answered.WriteFault
        → faults_by T.faults proofs.new ≡ faults_by T.faults proofs.old }
{
    texts.reply.clear();
    let Ok(_) = desk.answer(
        rt,
        alloc,
        line_number,
        line,
        &mut texts.reply,
        &mut texts.proof,
    ) else {
        return Answered::Memory;
    };
    let Ok(()) = proofs.put(texts.proof.as_slice()) else {
        return Answered::WriteFault;
    };
    match write_all(sink, texts.reply.as_slice()) {
        Ok(()) => Answered::Whole,
        Err(_) => Answered::WriteFault,
    }
}
