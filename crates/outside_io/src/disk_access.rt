//! How files of the machine are opened as disks.

ghost use Rattle.std.specs.Prelude.{◌↔◌, IsTrue};
ghost use Rattle.outside_io.specs.Access.{HoldsAlone, OnlyReads};

/// How the machine opens a file as a disk, and holds it until it is put back. A file that is only
/// read must be there: nothing is created, and no right to write is asked for. Any other is read
/// and written, and created where it isn't there. While another process holds a file alone, one
/// that is to be held alone isn't opened.
#[derive(Debug, Drop)]
pub enum DiskAccess {
    /// Each file is only read, beside all others, whichever way they hold it.
    Reading,
    /// Each file is read and written, and held alone.
    Writing,
    /// Each file is held alone. The one with the name `from` is only read, each other is read and
    /// written.
    Moving { from: String },
}

impl DiskAccess {
    /// Whether the file with this name is only read.
    pub fn only_reads(&self, name: &str) -> bool
        ensures { IsTrue result ↔ OnlyReads self.now name.now }
    {
        match self {
            DiskAccess::Reading => true,
            DiskAccess::Writing => false,
            DiskAccess::Moving { from } => from.as_str() == name,
        }
    }

    /// Whether files are held alone.
    pub fn holds_alone(&self) -> bool
        ensures { IsTrue result ↔ HoldsAlone self.now }
    {
        match self {
            DiskAccess::Reading => false,
            DiskAccess::Writing | DiskAccess::Moving { .. } => true,
        }
    }
}
