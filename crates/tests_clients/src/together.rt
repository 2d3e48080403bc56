//! The outside of two clients, and of workers.

ghost use Rattle.std.specs.Prelude.{◌≡◌, ◌≤◌, None};
ghost use Rattle.outside_io.specs.Faults.{next_count};
ghost use Rattle.outside_io.specs.Openings.{untold};
ghost use Rattle.outside_io.specs.Places.{hidden};

use crate::files::{NamedFile, bytes_of};
use crate::paced::{Heard, Paced, Pause};
use crate::signals::{Awaited, Signals, Whose};
use no_memory::NoMemory;
use outside_io::{Failed, MemDisk, MemOutside, MemSink, Outside};
use std::alloc::{AllocError, Global};
use std::io;
use std::sync::Arc;

/// The lines of a client, what each waits for, and where its replies go.
#[derive(Drop)]
pub struct Seat {
    pub name: &'static str,
    pub input: &'static str,
    pub lines: Vec<u8>,
    pub waits: Vec<Awaited>,
    pub sink: Option<Heard>,
}

/// Files, a disk in memory, and two clients that are paced. It tells only its count of faults.
#[derive(Drop)]
pub struct Together {
    rt: HostRuntime,
    pub signals: Arc<Signals, Global>,
    files: Vec<NamedFile>,
    pub inside: MemOutside,
    pub a: Seat,
    pub b: Seat,
    pub report: Option<Heard>,
    /// What goes aside: proofs of A's replies.
    pub aside: Option<Heard>,
    /// How many replies to B each search of A waits for.
    pub pauses: Vec<u64>,
    /// How many searches of workers each of them waits for.
    pub meet: u64,
    faults: u64,
}

// The room of a sink, and of the disk.
const ROOM: usize = 65_536;

/// The name of the sink for what goes aside, and of the source of what it took.
const ASIDE: &str = "aside";

/// An empty sink whose replies are counted.
pub fn sink_of(
    alloc: Global,
    whose: Whose,
    signals: &Arc<Signals, Global>,
) -> Result<Heard, AllocError> {
    let signals = Arc::try_clone(signals)?;
    match MemSink::new(alloc, ROOM, Vec::new(alloc)) {
        Ok(inside) => Ok(Heard {
            inside,
            whose,
            signals,
            faults: 0,
        }),
        Err(NoMemory) => Err(AllocError),
    }
}

// A client with no line.
fn seat_of(
    alloc: Global,
    name: &'static str,
    input: &'static str,
    whose: Whose,
    signals: &Arc<Signals, Global>,
) -> Result<Seat, AllocError> {
    Ok(Seat {
        name,
        input,
        lines: Vec::new(alloc),
        waits: Vec::new(alloc),
        sink: Some(sink_of(alloc, whose, signals)?),
    })
}

// Takes a sink out.
fn taken(place: &mut Option<Heard>) -> Option<Heard> {
    place.take()
}

impl Seat {
    /// Adds a line.
    pub fn add(&mut self, awaited: Awaited, line: &str) -> io::Result<()> {
        self.lines.extend_from_slice(line.as_bytes())?;
        self.lines.push(b'\n')?;
        self.waits.push(awaited)?;
        Ok(())
    }
}

impl Together {
    /// These files, an empty journal's disk, and clients with no line.
    pub fn new(rt: HostRuntime, files: &[NamedFile]) -> io::Result<Together> {
        let alloc = rt.alloc();
        let signals = Signals::new(alloc)?;
        let a = seat_of(alloc, "A", "a", Whose::OfA, &signals)?;
        let b = seat_of(alloc, "B", "b", Whose::OfB, &signals)?;
        let report = Some(sink_of(alloc, Whose::Nobodys, &signals)?);
        let aside = Some(sink_of(alloc, Whose::Nobodys, &signals)?);
        let mut outside = Together {
            rt,
            signals,
            files: copies_of(alloc, files)?,
            inside: MemOutside::new(alloc, Vec::new(alloc)),
            a,
            b,
            report,
            aside,
            pauses: Vec::new(alloc),
            meet: 0,
            faults: 0,
        };
        let disk = MemDisk::new(alloc, Vec::new(alloc), ROOM, Vec::new(alloc));
        set_disk(&mut outside.inside, disk)?;
        Ok(outside)
    }

    fn fail(&mut self) -> Failed
        ensures counted { self.new.faults ≡ next_count self.old.faults }
        ensures later { self.old.faults ≤ self.new.faults }
    {
        self.faults = self.faults.saturating_add(1);
        Failed
    }

    // The source of a client, of what went aside, or of a file.
    fn source_of(&self, name: &str) -> io::Result<Paced> {
        let alloc = self.rt.alloc();
        if name == self.a.input {
            return self.paced(&self.a.lines, &self.a.waits);
        }
        if name == self.b.input {
            return self.paced(&self.b.lines, &self.b.waits);
        }
        let none = Vec::new(alloc);
        match &self.aside {
            Some(heard) if name == ASIDE => self.paced(heard.inside.bytes(), &none),
            _ => self.paced(bytes_of(&self.files, name)?, &none),
        }
    }

    fn paced(&self, bytes: &[u8], waits: &[Awaited]) -> io::Result<Paced> {
        let alloc = self.rt.alloc();
        Ok(Paced {
            rt: self.rt,
            signals: Arc::try_clone(&self.signals)?,
            bytes: Vec::from_slice(alloc, bytes)?,
            waits: Vec::from_slice(alloc, waits)?,
            at: 0,
            lines: 0,
            faults: 0,
        })
    }

    // What happens behind the searches of a client. One that is neither A nor B is a worker.
    fn pause_of(&self, client: &str) -> Result<Pause, AllocError> {
        let rt = self.rt;
        if client == self.a.name {
            return Ok(Pause::ForReplies {
                rt,
                signals: Arc::try_clone(&self.signals)?,
                replies: Vec::from_slice(rt.alloc(), &self.pauses)?,
            });
        }
        if client == self.b.name {
            return Ok(Pause::Nothing);
        }
        Ok(Pause::ForWorkers {
            rt,
            signals: Arc::try_clone(&self.signals)?,
            searches: self.meet,
        })
    }
}

fn copies_of(alloc: Global, files: &[NamedFile]) -> io::Result<Vec<NamedFile>> {
    let mut copies = Vec::new(alloc);
    for file in files {
        let name = String::from_str(alloc, file.name.as_str())?;
        let bytes = Vec::from_slice(alloc, &file.bytes)?;
        copies.push(NamedFile { name, bytes })?;
    }
    Ok(copies)
}

fn set_disk(outside: &mut MemOutside, disk: Result<MemDisk, NoMemory>) -> io::Result<()> {
    let Ok(disk) = disk else {
        return Err(AllocError.into());
    };
    match outside.set_disk("j", disk) {
        Ok(()) => Ok(()),
        Err(NoMemory) => Err(AllocError.into()),
    }
}

impl Outside for Together {
    type Src = Paced;

    type Snk = Heard;

    type Dsk = MemDisk;

    type Btw = Pause;

    ghost faults = { λ o. o.faults };

    ghost standing = { λ _ _. untold };

    ghost opened = { λ _. None };

    ghost sources = { λ _ _. hidden };

    ghost sinks = { λ _ _. hidden };

    ghost disks = { λ _ _. hidden };

    ghost reported = { λ _. hidden };

    fn source(&mut self, name: &str) -> Result<Paced, Failed> {
        match self.source_of(name) {
            Ok(source) => Ok(source),
            Err(_) => Err(self.fail()),
        }
    }

    fn sink(&mut self, name: &str) -> Result<Heard, Failed> {
        let sink = if name == self.a.name {
            taken(&mut self.a.sink)
        } else if name == self.b.name {
            taken(&mut self.b.sink)
        } else if name == ASIDE {
            taken(&mut self.aside)
        } else {
            None
        };
        match sink {
            Some(sink) => Ok(sink),
            None => Err(self.fail()),
        }
    }

    fn put_back_source(&mut self, _name: &str, _it: Paced) {}

    fn put_back_sink(&mut self, name: &str, it: Heard) {
        if name == self.a.name {
            self.a.sink = Some(it);
        } else if name == self.b.name {
            self.b.sink = Some(it);
        } else if name == ASIDE {
            self.aside = Some(it);
        }
    }

    fn report(&mut self) -> Result<Heard, Failed> {
        match taken(&mut self.report) {
            Some(sink) => Ok(sink),
            None => Err(self.fail()),
        }
    }

    fn put_back_report(&mut self, it: Heard) {
        self.report = Some(it);
    }

    fn disk(&mut self, name: &str) -> Result<MemDisk, Failed> {
        match self.inside.disk(name) {
            Ok(disk) => Ok(disk),
            Err(_) => Err(self.fail()),
        }
    }

    fn put_back_disk(&mut self, name: &str, it: MemDisk) {
        self.inside.put_back_disk(name, it);
    }

    fn between(&mut self, client: &str) -> Pause {
        match self.pause_of(client) {
            Ok(pause) => pause,
            Err(_) => Pause::Nothing,
        }
    }
}
