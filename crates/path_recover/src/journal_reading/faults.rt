/// Why a journal is not opened. They are tested in this order, but for want of
/// memory, which may come at any time.
#[derive(Clone, Copy, Debug, PartialEq, Eq)]
pub enum OpenFault {
    /// The disk failed.
    ReadFault,
    /// The file has no byte.
    Empty,
    /// The file is a journal of version 1.
    OldVersion,
    /// The first of the twelve bytes that every journal begins with, at which the file differs; or
    /// the file's length, where it ends in the header and none differs.
    NotAJournal { at: u64 },
    /// The journal belongs to a network's file with another digest: the one that it
    /// has, and the one that was found.
    OtherNetwork { had: [u8; 32], found: [u8; 32] },
    /// The same of the base timetable's file.
    OtherBase { had: [u8; 32], found: [u8; 32] },
    /// At this offset stands no gate; or an open one, behind which no
    /// whole record of an entry stands.
    Damaged { at: u64 },
    /// The entry at this position is not legal behind those before it.
    Illegal { entry: u64 },
    /// Memory was wanted.
    Memory,
}
