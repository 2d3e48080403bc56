//! Carries out a table of commands over outsides in memory, and prints how each ends and what it
//! leaves. The table says which files, disks, sources and sinks there are, and which of their calls
//! fail. The head of the table that stands beside this program tells its instructions.
#![tactic(auto)]

mod files;
mod fused;
mod outcomes;
mod stages;
mod tables;

use std::io;
use tables::carry_out;

fn main(rt: HostRuntime) -> io::Result<()> {
    let table = io::read_to_string(rt.alloc(), rt.reader())?;
    carry_out(&rt, table.as_str())
}
