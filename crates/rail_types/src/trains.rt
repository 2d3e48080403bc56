//! Trains and what clients ask for them.

ghost use Rattle.std.specs.Prelude.{◌≡◌, ◌↔◌, IfOk, IsTrue};

use crate::{List, Name, Window};
use no_memory::NoMemory;
use std::alloc::Global;

/// A train: its length in metres, its greatest speed in millimetres a second, acceleration and
/// braking in millimetres a second squared, and the allowance on its running times in per cent.
#[derive(Debug, Drop)]
pub struct Train {
    pub name: Name,
    pub length_m: u32,
    pub speed: u32,
    pub accel: u32,
    pub brake: u32,
    pub allowance: u32,
}

impl Train {
    /// An equal train of its own.
    pub fn copy(&self, alloc: Global) -> Result<Train, NoMemory>
        ensures { IfOk result (λ train. train ≡ self.now) }
    {
        Ok(Train {
            name: self.name.copy(alloc)?,
            length_m: self.length_m,
            speed: self.speed,
            accel: self.accel,
            brake: self.brake,
            allowance: self.allowance,
        })
    }

    /// Whether two trains have the same name and the same numbers.
    pub fn is_same(&self, other: &Train) -> bool
        ensures { IsTrue result ↔ (self.now ≡ other.now) }
    {
        self.name.is_same(&other.name)
            && self.length_m == other.length_m
            && self.speed == other.speed
            && self.accel == other.accel
            && self.brake == other.brake
            && self.allowance == other.allowance
    }
}

/// A stop that a request names: the operational point and the least dwell there in ticks.
#[derive(Clone, Copy, Debug, PartialEq, Eq)]
pub struct Stop {
    pub stop: u32,
    pub dwell: u32,
}

/// A path that is asked for: train, origin and destination by their operational points, the windows
/// in which the train may depart and arrive, and the stops between, in order.
#[derive(Debug, Drop)]
pub struct Request {
    pub train: Train,
    pub origin: u32,
    pub destination: u32,
    pub depart: Window,
    pub arrive: Window,
    pub stops: List<Stop>,
}

impl Request {
    /// An equal request of its own.
    pub fn copy(&self, alloc: Global) -> Result<Request, NoMemory>
        ensures { IfOk result (λ request. request ≡ self.now) }
    {
        Ok(Request {
            train: self.train.copy(alloc)?,
            origin: self.origin,
            destination: self.destination,
            depart: self.depart,
            arrive: self.arrive,
            stops: self.stops.copy(alloc)?,
        })
    }

    /// Whether two requests ask for the same.
    pub fn is_same(&self, other: &Request) -> bool
        ensures { IsTrue result ↔ (self.now ≡ other.now) }
    {
        self.train.is_same(&other.train)
            && self.origin == other.origin
            && self.destination == other.destination
            && self.depart == other.depart
            && self.arrive == other.arrive
            && same_stops(self.stops.as_slice(), other.stops.as_slice())
    }
}

fn same_stops(a: &[Stop], b: &[Stop]) -> bool
    ensures { IsTrue result ↔ (a.now ≡ b.now) }
{
    a == b
}
