//! The replies to clients' lines, as they are written.

mod deeds;
mod parts;
mod prints;
mod replies;
mod rooms;
mod texts;

#[doc(hidden)]
pub use prints::{print_flag, print_name, print_number, print_tick, print_word};
pub use replies::Reply;
pub use rooms::{replies_have_room, reply_room};
pub use texts::reply_text;
