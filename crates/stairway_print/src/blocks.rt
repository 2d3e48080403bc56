//! The lines of blocks.

ghost use Rattle.std.specs.Prelude.{◌≡◌, ◌<◌, ◌++◌, OnOk, option_map, slice_get};
ghost use Rattle.stairway_print.specs.Networks.{block_line, block_lines, cell_text, cells_text};
ghost use Rattle.stairway_print.specs.Networks.{name_of, numbers_text, route_text, serves_text};
ghost use Rattle.stairway_print.specs.Networks.{stop_text};

use crate::words::{push_name, push_number};
use no_memory::NoMemory;
use rail_types::named_network::BlockName;
use rail_types::{Block, Cell, Name};
use std::alloc::Global;

/// Appends a line for each block that has a name.
pub(crate) fn push_blocks(
    alloc: Global,
    to: &mut Vec<u8>,
    blocks: &[Block],
    names: &[BlockName],
    stops: &[Name],
) -> Result<(), NoMemory>
    ensures { OnOk result
        (to.new.items ≡ to.old.items ++ block_lines stops.now 0 blocks.now names.now) }
{
    let mut number = 0u64;
    'lines: for block in blocks {
        let Some(name) = name_at(names, number as usize) else {
            return Ok(());
        };
        push_block(alloc, to, number, block, name, stops)?;
        number += 1;
    }
    Ok(())
}

fn push_block(
    alloc: Global,
    to: &mut Vec<u8>,
    number: u64,
    block: &Block,
    name: &BlockName,
    stops: &[Name],
) -> Result<(), NoMemory>
    ensures { OnOk result
        (to.new.items ≡ to.old.items ++ block_line stops.now number block.now name.now) }
{
    push_number(to, b"block ", number)?;
    push_route(alloc, to, name)?;
    push_numbers(to, block)?;
    push_cells(to, block.cells.as_slice())?;
    push_serves(alloc, to, block.serves.as_slice(), stops)?;
    to.push(b'\n')?;
    Ok(())
}

fn name_at(names: &[BlockName], number: usize) -> Option<&BlockName>
    ensures { option_map (λ name. name.now) result ≡ slice_get names.now number }
{
    names.get(number)
}

fn push_route(alloc: Global, to: &mut Vec<u8>, name: &BlockName) -> Result<(), NoMemory>
    ensures { OnOk result (to.new.items ≡ to.old.items ++ route_text name.now) }
{
    push_name(alloc, to, b" route ", name.route.as_bytes())?;
    push_number(to, b" part ", u64::from(name.part))?;
    Ok(())
}

fn push_numbers(to: &mut Vec<u8>, block: &Block) -> Result<(), NoMemory>
    ensures { OnOk result (to.new.items ≡ to.old.items ++ numbers_text block.now) }
{
    push_number(to, b" length ", u64::from(block.length_m))?;
    push_number(to, b" speed ", u64::from(block.speed))?;
    push_number(to, b" sight ", u64::from(block.sight_m))?;
    Ok(())
}

fn push_cells(to: &mut Vec<u8>, cells: &[Cell]) -> Result<(), NoMemory>
    ensures { OnOk result (to.new.items ≡ to.old.items ++ cells_text cells.now) }
{
    push_number(to, b" cells ", cells.len() as u64)?;
    'cells: for cell in cells {
        push_cell(to, cell)?;
    }
    Ok(())
}

fn push_cell(to: &mut Vec<u8>, cell: &Cell) -> Result<(), NoMemory>
    ensures { OnOk result (to.new.items ≡ to.old.items ++ cell_text cell.now) }
{
    push_number(to, b" ", u64::from(cell.zone))?;
    push_number(to, b" ", u64::from(cell.release_m))?;
    Ok(())
}

fn push_serves(
    alloc: Global,
    to: &mut Vec<u8>,
    serves: &[u32],
    stops: &[Name],
) -> Result<(), NoMemory>
    ensures { OnOk result (to.new.items ≡ to.old.items ++ serves_text stops.now serves.now) }
{
    push_number(to, b" serves ", serves.len() as u64)?;
    'serves: for stop in serves {
        push_stop(alloc, to, *stop, stops)?;
    }
    Ok(())
}

fn push_stop(alloc: Global, to: &mut Vec<u8>, stop: u32, stops: &[Name]) -> Result<(), NoMemory>
    ensures { OnOk result (to.new.items ≡ to.old.items ++ stop_text stops.now stop) }
{
    push_name(alloc, to, b" ", name_of(stops, stop))
}

/// The name of an operational point; a network whose parts have names has one
/// for each that a block serves.
fn name_of(stops: &[Name], stop: u32) -> &[u8]
    ensures { result.now ≡ name_of stops.now stop }
{
    let Some(name) = stops.get(stop as usize) else {
        return b"";
    };
    name.as_bytes()
}
