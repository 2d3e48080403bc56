//! A list that is read as a whole.

ghost use Rattle.std.specs.Prelude.{◌≡◌, ◌++◌, ◌∷◌, [], IfErr, IfOk, OnOk};
ghost use Rattle.batch_command.specs.LineLists.{IsWhole, Refuses};

use no_memory::NoMemory;
use outside_io::Source;
use rail_types::Name;
use served_clients::sessions::{LineReader, MAX_LINES, More, Step};
use std::alloc::Global;
use thiserror::Error;

/// Why a list was not read.
#[derive(Clone, Copy, Debug, PartialEq, Eq, Error)]
pub enum ListFault {
    /// The source failed.
    #[error("read fault")]
    ReadFault,
    /// A line is longer than is allowed.
    #[error("long line")]
    LongLine,
    /// There are more lines than are allowed.
    #[error("line count")]
    LineCount,
    /// Memory was wanted.
    #[error("no memory")]
    Memory,
}

/// Reads all lines of a source.
pub fn read_list<S: Source>(alloc: Global, source: &mut S) -> Result<Vec<Name>, ListFault>
    ensures read { IfOk result (λ lines. IsWhole S.Source source.old source.new lines.items) }
    ensures refused { IfErr result (Refuses S.Source source.old source.new) }
{
    let Ok(mut reader) = LineReader::new(alloc) else {
        return Err(ListFault::Memory);
    };
    let mut lines = Vec::new(alloc);
    match read_lines(alloc, &mut reader, source, &mut lines) {
        Ok(()) => Ok(lines),
        Err(fault) => Err(fault),
    }
}

// Reads all lines of a source by a reader that holds nothing, behind no others.
fn read_lines<S: Source>(
    alloc: Global,
    reader: &mut LineReader,
    source: &mut S,
    lines: &mut Vec<Name>,
) -> Result<(), ListFault>
    requires nothing { reader.old.pending ≡ [] }
    requires none { lines.old.items ≡ [] }
    ensures read { OnOk result (IsWhole S.Source source.old source.new lines.new.items) }
    ensures refused { IfErr result (Refuses S.Source source.old source.new) }
{
    for _before in 0..MAX_LINES {
        match reader.next_line(source) {
            Step::Line => {
                let Ok(()) = keep(alloc, reader.line(), lines) else {
                    return Err(ListFault::Memory);
                };
            }
            Step::Last => {
                let Ok(()) = keep(alloc, reader.line(), lines) else {
                    return Err(ListFault::Memory);
                };
                return Ok(());
            }
            Step::End => return Ok(()),
            Step::LongLine => return Err(ListFault::LongLine),
            Step::ReadFault => return Err(ListFault::ReadFault),
            Step::Memory => return Err(ListFault::Memory),
        }
    }
    match reader.has_more(source) {
        More::Bytes => Err(ListFault::LineCount),
        More::Nothing => Ok(()),
        More::Failed => Err(ListFault::ReadFault),
    }
}

// Puts a line behind the others.
fn keep(alloc: Global, line: &[u8], lines: &mut Vec<Name>) -> Result<(), NoMemory>
    ensures { OnOk result (lines.new.items ≡ lines.old.items ++ line.now ∷ []) }
{
    let line = Name::from_bytes(alloc, line)?;
    lines.push(line)?;
    Ok(())
}
