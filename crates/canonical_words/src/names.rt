//! The values of options that several commands have.

/// The names of a network's, a base timetable's and a journal's file.
#[derive(Clone, Copy)]
pub struct FileNames<'a> {
    pub network: &'a str,
    pub base: &'a str,
    pub journal: &'a str,
}

/// The words for the zones and the window of a capacity.
#[derive(Clone, Copy)]
pub struct StretchWords<'a> {
    pub first: &'a str,
    pub last: &'a str,
    pub from: &'a str,
    pub to: &'a str,
}
