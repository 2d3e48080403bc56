//! Two clients at once, A and B, or the workers of a batch, over an outside in memory that paces
//! them: a line is given, or a search goes on, only once what it waits for has come, so that a
//! server which serves one behind the other, or searches while nobody else is answered, does not
//! come to the end. The head of the table that stands beside this program tells its instructions.
#![tactic(auto)]

mod files;
mod own;
mod paced;
mod signals;
mod tables;
mod together;

use std::io;
use tables::carry_out;

fn main(rt: HostRuntime) -> io::Result<()> {
    let table = io::read_to_string(rt.alloc(), rt.reader())?;
    carry_out(&rt, rt, table.as_str())
}
