//! Groups of fields that come several times.

ghost use Rattle.std.specs.Prelude.{None};
ghost use Rattle.client_lines.specs.Lines.{groups};
ghost use Rattle.client_lines.specs.Reading.{Gives, read};

use crate::cuts::Fields;
use crate::faults::LineFault;
use crate::known::Known;
use rail_types::List;
use std::alloc::Global;

/// A group of fields that may come several times in a line.
pub(crate) trait Group: Copy + Drop {
    ghost use Rattle.std.specs.Prelude.{Option};
    ghost use Rattle.client_lines.specs.Names.{Names};
    ghost use Rattle.client_lines.specs.Forms.{Form};
    ghost use Rattle.client_lines.specs.Reading.{Gives, read};

    ghost form: { Names → Option Self → Form Self };

    /// Reads the group behind the one before it.
    fn read(
        alloc: Global,
        fields: &mut Fields<'_>,
        known: &Known,
        before: &Option<Self>,
    ) -> Result<Self, LineFault>
        ensures { Gives fields.new result (read (form known.now before.now) fields.old) };
}

pub(crate) fn read_groups<G: Group>(
    alloc: Global,
    fields: &mut Fields<'_>,
    known: &Known,
    count: usize,
) -> Result<List<G>, LineFault>
    ensures { Gives fields.new result (read (groups (G.form known.now) None count) fields.old) }
{
    let mut items = Vec::with_capacity(alloc, count)?;
    let mut before = None;
    for _ in 0..count {
        let item = G::read(alloc, fields, known, &before)?;
        items.push(item)?;
        before = Some(item);
    }
    Ok(List::from_vec(items))
}
