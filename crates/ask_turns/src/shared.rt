//! What all clients share.

use book_gate::Gate;
use client_lines::Known;
use outside_io::Disk;
use path_commit::Book;
use path_labels::tails::Followers;
use rail_types::Settings;

/// The gate that keeps the book, what lines may name, the settings of the book's timetable, and
/// which blocks of its network follow one another.
#[derive(Drop)]
pub struct Shared<D: Disk> {
    pub gate: Gate<Book<D>>,
    pub known: Known,
    pub settings: Settings,
    pub followers: Followers,
}
