//! Compares fast bodies with plain doubles, which take each thing anew, one by one: the search for
//! a path with a walk over every place at every tick, and copies of the live claims that were
//! brought up with copies made anew. The table that stands beside this program says what is asked,
//! and its head tells its instructions.
#![tactic(auto)]

mod books;
mod comparisons;
mod copies;
mod deeds;
mod doubles;
mod draws;
mod made;
mod railway;
mod tables;
mod tallies;
mod told;
mod words;

use std::io;
use tables::carry_out;

fn main(rt: HostRuntime) -> io::Result<()> {
    let table = io::read_to_string(rt.alloc(), rt.reader())?;
    carry_out(&rt, table.as_str())
}
