//! What a run over a journal has in common, whoever is served over it: its files, its journal once
//! it is opened, and the disk once it is handed back.

mod books;
mod files;
mod refusals;

pub use books::{Opened, close_book, open_book};
pub use files::Files;
