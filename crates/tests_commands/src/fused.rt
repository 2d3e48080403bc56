//! An outside in memory whose disks stop.

ghost use Rattle.std.specs.Prelude.{◌≡◌, None};
ghost use Rattle.outside_io.specs.InMemory.{faults_of};
ghost use Rattle.outside_io.specs.Openings.{untold};
ghost use Rattle.outside_io.specs.Places.{hidden};

use outside_io::{Failed, Fuse, MemDisk, MemOutside, MemSink, MemSource, NoBetween, Outside};

/// An outside in memory, each of whose disks stands behind a fuse when it is opened: it lets so
/// many calls through. It tells only its count of faults.
#[derive(Drop)]
pub struct Fused {
    pub inside: MemOutside,
    pub calls: u64,
}

impl Outside for Fused {
    type Src = MemSource;

    type Snk = MemSink;

    type Dsk = Fuse<MemDisk>;

    type Btw = NoBetween;

    ghost faults = { λ o. faults_of o.inside };

    ghost standing = { λ _ _. untold };

    ghost opened = { λ _. None };

    ghost sources = { λ _ _. hidden };

    ghost sinks = { λ _ _. hidden };

    ghost disks = { λ _ _. hidden };

    ghost reported = { λ _. hidden };

    fn source(&mut self, name: &str) -> Result<MemSource, Failed> {
        self.inside.source(name)
    }

    fn sink(&mut self, name: &str) -> Result<MemSink, Failed> {
        self.inside.sink(name)
    }

    fn put_back_source(&mut self, name: &str, it: MemSource) {
        self.inside.put_back_source(name, it);
    }

    fn put_back_sink(&mut self, name: &str, it: MemSink) {
        self.inside.put_back_sink(name, it);
    }

    fn report(&mut self) -> Result<MemSink, Failed> {
        self.inside.report()
    }

    fn put_back_report(&mut self, it: MemSink) {
        self.inside.put_back_report(it);
    }

    fn disk(&mut self, name: &str) -> Result<Fuse<MemDisk>, Failed> {
        let disk = self.inside.disk(name)?;
        Ok(Fuse::new(disk, self.calls))
    }

    fn put_back_disk(&mut self, name: &str, it: Fuse<MemDisk>) {
        self.inside.put_back_disk(name, it.into_inner());
    }

    fn between(&mut self, _client: &str) -> NoBetween {
        NoBetween
    }
}
