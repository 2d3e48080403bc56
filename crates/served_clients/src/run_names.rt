//! The names of the files of a run.

/// The names of a network's file, a train file, a base timetable's and a journal.
#[derive(Clone, Copy)]
pub struct RunNames<'a> {
    pub network: &'a str,
    pub trains: &'a str,
    pub base: &'a str,
    pub journal: &'a str,
}
