//! How the file of a journal is begun, and how it is read: its header, and behind
//! it the bodies of its entries.

mod beginning;
mod bodies;
mod faults;
mod laws;
mod ranges;
mod records;
mod starts;

pub use beginning::{InitFault, init};
pub use faults::OpenFault;
pub use laws::one_history;
pub use ranges::is_on;
pub use records::{Next, next_record};
pub use starts::pass_header;
