//! The work of `list`: reads the network, and writes its table.

ghost use Rattle.std.specs.Prelude.{◌≡◌, IfErr, IfOk};
ghost use Rattle.command_reports.specs.Scenes.{scene};
ghost use Rattle.stairway_print.specs.Networks.{network_text};
ghost use Rattle.print_commands.specs.Works.{ListWorks, WritesTable};

use command_files::{read_network, write_out};
use command_reports::Refusal;
use command_reports::exit_status::Status;
use no_memory::NoMemory;
use outside_io::Outside;
use rail_types::named_network::Named;
use stairway_print::network_table;
use std::alloc::Global;

/// Reads the network, and writes its table once nothing else refuses.
pub(crate) fn work<O: Outside>(
    alloc: Global,
    network: &str,
    out: &str,
    outside: &mut O,
) -> Result<Status, Refusal>
    ensures works { ListWorks O.Src.Source O.Snk.Sink network.now out.now
        (scene O.Outside outside.old) (scene O.Outside outside.new) result }
{
    let named = read_network(alloc, network, outside)?;
    write_table(alloc, &named, out, outside)
}

// Writes the table of a network.
fn write_table<O: Outside>(
    alloc: Global,
    named: &Named,
    out: &str,
    outside: &mut O,
) -> Result<Status, Refusal>
    ensures writes { WritesTable O.Snk.Sink named.now out.now (scene O.Outside outside.old)
        (scene O.Outside outside.new) result }
{
    let table = table_of(alloc, named)?;
    let status = write_out(alloc, out, &table, outside)?;
    Ok(status)
}

// The table of a network.
fn table_of(alloc: Global, named: &Named) -> Result<Vec<u8>, Refusal>
    ensures table { IfOk result (λ table. table.items ≡ network_text named.now) }
    ensures memory { IfErr result (λ refusal. refusal ≡ Refusal.Memory) }
{
    match network_table(alloc, named) {
        Ok(table) => Ok(table),
        Err(NoMemory) => Err(Refusal::Memory),
    }
}
