//! Carries out a table of calls of parts that no command reaches by itself: outsides in memory and
//! the machine's, with their sources, sinks and disks, and the world of clients and one history.
//! The head of the table that stands beside this program tells its instructions.
#![tactic(auto)]

mod entries;
mod outsides;
mod paths;
mod railway;
mod shown;
mod tables;
mod uses;
mod words;
mod worlds;

use std::io;
use tables::carry_out;

fn main(rt: HostRuntime) -> io::Result<()> {
    let table = io::read_to_string(rt.alloc(), rt.reader())?;
    carry_out(rt, table.as_str())
}
