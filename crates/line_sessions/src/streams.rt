//! Lines out of a source.

ghost use Rattle.std.specs.Prelude.{◌≡◌, ◌≢◌, ◌≤◌, [], length, IfOk};
ghost use Rattle.client_lines.specs.declared.lines.TheConstants.{MAX_LINE_BYTES};
ghost use Rattle.outside_io.specs.Faults.{Rose};
ghost use Rattle.line_sessions.specs.Streams.{IsLastStep, PartThenFault, Says, SaysFound, SaysMore};
ghost use Rattle.line_sessions.specs.Streams.{SaysRefilled};

use crate::cuts::cut_at;
use byte_fields::Buffer;
use client_lines::MAX_LINE_BYTES;
use no_memory::NoMemory;
use outside_io::{Failed, Source};
use std::alloc::Global;
use std::marker::Model;

/// How many bytes are asked of a source at once.
const PIECE_BYTES: usize = 65_536;

/// What came out of a source.
#[derive(Clone, Copy, Debug, PartialEq, Eq)]
pub enum Step {
    /// A line with its line end.
    Line,
    /// A last line without a line end. It has a byte at least.
    Last,
    /// The end of the source, behind a line end or at its very beginning.
    End,
    /// A line of more bytes than are allowed.
    LongLine,
    /// The source failed.
    ReadFault,
    /// Memory was wanted.
    Memory,
}

/// What was found among the bytes that are there already.
#[derive(Clone, Copy, Debug, PartialEq, Eq)]
pub(crate) enum Found {
    /// The end of the line.
    Ending,
    /// No line end: all bytes went into the line.
    Part,
    /// More bytes of one line than are allowed.
    TooMany,
    /// Memory was wanted.
    Memory,
}

/// How asking a source for more bytes came out.
#[derive(Clone, Copy, Debug, PartialEq, Eq)]
pub enum More {
    /// There are more.
    Bytes,
    /// The source is at its end.
    Nothing,
    /// The source failed.
    Failed,
}

/// Cuts the bytes of a source into lines.
#[derive(Drop)]
pub struct LineReader {
    piece: Vec<u8>,
    begin: usize,
    end: usize,
    line: Buffer,
}

impl Model for LineReader {
    ghost use Rattle.std.specs.Prelude.{◌≤◌, length, slice_range};
    ghost use Rattle.line_sessions.specs.Streams.{Lines};

    ghost Value = { Lines };

    ghost view = { λ a. record {
      line = a.line.held;
      pending = slice_range a.piece.items a.begin a.end;
    } };

    ghost invariant = { λ a. (a.begin ≤ a.end) × (a.end ≤ length a.piece.items)
        × (1 ≤ length a.piece.items) };
}

impl LineReader {
    /// A reader that holds nothing. It takes the memory for what it reads at
    /// once and for the longest line.
    pub fn new(alloc: Global) -> Result<LineReader, NoMemory>
        ensures { IfOk result (λ reader. reader.pending ≡ []) }
    {
        let mut line = Buffer::new(alloc);
        line.reserve(MAX_LINE_BYTES)?;
        Ok(LineReader {
            piece: vec![in alloc; 0; PIECE_BYTES]?,
            begin: 0,
            end: 0,
            line,
        })
    }

    /// The line that was read last.
    pub fn line(&self) -> &[u8]
        ensures { result.now ≡ self.now.line }
    {
        self.line.as_slice()
    }

    /// Reads up to the next line end.
    pub fn next_line<S: Source>(&mut self, source: &mut S) -> Step
        ensures says { Says result (S.left source.old) (S.left source.new)
            self.old.pending self.new }
        ensures quiet { result ≢ Step.ReadFault → S.faults source.new ≡ S.faults source.old }
        ensures fault { result ≡ Step.ReadFault
            → PartThenFault S.left S.faults source.old source.new self.old.pending }
    {
        self.line.clear();
        loop {
            match self.take_pending() {
                Found::Ending => return Step::Line,
                Found::TooMany => return Step::LongLine,
                Found::Memory => return Step::Memory,
                Found::Part => {}
            }
            match self.refill(source) {
                More::Bytes => {}
                More::Nothing => return self.last_step(),
                More::Failed => return Step::ReadFault,
            }
        }
    }

    /// Whether a byte comes behind the lines that were read.
    pub fn has_more<S: Source>(&mut self, source: &mut S) -> More
        ensures says { SaysMore result (S.left source.old) (S.left source.new) self.old.pending }
        ensures quiet { result ≢ More.Failed → S.faults source.new ≡ S.faults source.old }
        ensures later { S.faults source.old ≤ S.faults source.new }
        ensures cause { result ≡ More.Failed → Rose (S.faults source.old) (S.faults source.new) }
    {
        if self.begin < self.end {
            return More::Bytes;
        }
        self.refill(source)
    }

    fn last_step(&self) -> Step
        ensures { IsLastStep result self.now.line }
    {
        if self.line.is_empty() {
            Step::End
        } else {
            Step::Last
        }
    }

    // Moves the bytes that are there into the line, up to a line end.
    fn take_pending(&mut self) -> Found
        requires { length self.old.line ≤ MAX_LINE_BYTES }
        ensures { SaysFound result self.old self.new }
    {
        let pending = &self.piece[self.begin..self.end];
        let room = MAX_LINE_BYTES - self.line.len();
        match cut_at(b'\n', pending) {
            Some((front, _)) => {
                if front.len() > room {
                    return Found::TooMany;
                }
                let Ok(()) = self.line.extend(front) else {
                    return Found::Memory;
                };
                self.begin += front.len() + 1;
                Found::Ending
            }
            None => {
                if pending.len() > room {
                    return Found::TooMany;
                }
                let Ok(()) = self.line.extend(pending) else {
                    return Found::Memory;
                };
                self.begin = self.end;
                Found::Part
            }
        }
    }

    // Asks for more bytes, where none are left.
    fn refill<S: Source>(&mut self, source: &mut S) -> More
        requires { self.old.pending ≡ [] }
        ensures says { SaysRefilled result (S.left source.old) (S.left source.new)
            self.new.pending }
        ensures line { self.new.line ≡ self.old.line }
        ensures quiet { result ≢ More.Failed → S.faults source.new ≡ S.faults source.old }
        ensures later { S.faults source.old ≤ S.faults source.new }
        ensures cause { result ≡ More.Failed → Rose (S.faults source.old) (S.faults source.new) }
    {
        match source.read(&mut self.piece) {
            Err(Failed) => More::Failed,
            Ok(count) => {
                self.begin = 0;
                self.end = count;
                if count == 0 {
                    More::Nothing
                } else {
                    More::Bytes
                }
            }
        }
    }
}
