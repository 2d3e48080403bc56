// The opening calls of an outside in memory, kept as long as there is memory for them.
ghost use Rattle.std.specs.Prelude.{◌≡◌, ◌∷◌, [], None, Some};
ghost use Rattle.outside_io.specs.Called.{calls_told, opening_of};
ghost use Rattle.outside_io.specs.Openings.{Opens, source_at, sink_at, the_report, disk_at};

use std::alloc::Global;

// An opening call, with the name that it opens.
#[derive(Debug, Drop)]
pub enum Call {
    OfSource(String),
    OfSink(String),
    OfReport,
    OfDisk(String),
}

// The calls so far, and whether each of them was kept.
#[derive(Debug, Drop)]
pub struct Calls {
    pub kept: Vec<Call>,
    pub are_all: bool,
}

impl Calls {
    pub fn new(alloc: Global) -> Calls
        ensures { calls_told result ≡ Some [] }
    {
        Calls {
            kept: Vec::new(alloc),
            are_all: true,
        }
    }

    fn add(&mut self, call: Call)
        ensures { Opens (opening_of call ∷ []) (calls_told self.old) (calls_told self.new) }
    {
        if self.kept.push(call).is_err() {
            self.are_all = false;
        }
    }

    // No call is told any more.
    fn give_up(&mut self)
        ensures { calls_told self.new ≡ None }
    {
        self.are_all = false;
    }

    pub fn add_source(&mut self, alloc: Global, name: &str)
        ensures { Opens (source_at name.now ∷ []) (calls_told self.old) (calls_told self.new) }
    {
        match String::from_str(alloc, name) {
            Ok(name) => self.add(Call::OfSource(name)),
            Err(_) => self.give_up(),
        }
    }

    pub fn add_sink(&mut self, alloc: Global, name: &str)
        ensures { Opens (sink_at name.now ∷ []) (calls_told self.old) (calls_told self.new) }
    {
        match String::from_str(alloc, name) {
            Ok(name) => self.add(Call::OfSink(name)),
            Err(_) => self.give_up(),
        }
    }

    pub fn add_report(&mut self)
        ensures { Opens (the_report ∷ []) (calls_told self.old) (calls_told self.new) }
    {
        self.add(Call::OfReport);
    }

    pub fn add_disk(&mut self, alloc: Global, name: &str)
        ensures { Opens (disk_at name.now ∷ []) (calls_told self.old) (calls_told self.new) }
    {
        match String::from_str(alloc, name) {
            Ok(name) => self.add(Call::OfDisk(name)),
            Err(_) => self.give_up(),
        }
    }
}
