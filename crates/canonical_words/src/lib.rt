//! The options of the server's commands that stand once, handed to `clap` in one form and
//! in one order, and taken back.
#![tactic(auto)]

mod commands;
mod names;
mod parsing;

pub use commands::{
    BatchTexts, CapacityTexts, CarryTexts, CheckTexts, DemoTexts, InitTexts, ListTexts, MoveTexts,
    ServeTexts, StairsTexts, parse_batch, parse_capacity, parse_carry, parse_check, parse_demo,
    parse_init, parse_left, parse_list, parse_move, parse_serve, parse_stairs,
};
pub use names::{FileNames, StretchWords};
