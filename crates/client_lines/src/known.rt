//! What lines may name, found by its names.

ghost use Rattle.std.specs.Prelude.{◌≡◌, ◌≤◌, length, option_map, IfOk};
ghost use Rattle.rail_types.specs.IdLists.{number_of};
ghost use Rattle.rail_types.specs.declared.limits.TheConstants.{MAX_OBJECTS};
ghost use Rattle.train_file.specs.Trains.{train_named};

use crate::places::{place_in, places_of};
use indexmap::IndexMap;
use no_memory::NoMemory;
use rail_types::Train;
use rail_types::named_network::Named;
use std::alloc::Global;
use std::marker::Model;
use train_file::Trains;

/// What lines may name: the zones, blocks and operational points of a network, and the
/// trains of a file. Points and trains are found by their names without a search. Contracts
/// see the network and the trains.
#[derive(Drop)]
pub struct Known {
    railway: Named,
    trains: Trains,
    places: IndexMap<Vec<u8>, u32>,
}

impl Model for Known {
    ghost use Rattle.client_lines.specs.Names.{IsIndexed, Names};

    ghost Value = { Names };

    ghost view = { λ a. record { railway = a.railway; trains = a.trains } };

    ghost invariant = { λ a. IsIndexed (λ key. key.items) a.railway a.places.entries };
}

impl Known {
    /// The network and the trains, with an index of the network's operational points.
    pub fn new(alloc: Global, railway: Named, trains: Trains) -> Result<Known, NoMemory>
        requires stops { length railway.stops ≤ MAX_OBJECTS }
        requires blocks { length railway.network.blocks ≤ MAX_OBJECTS }
        ensures railway { IfOk result (λ known. known.railway ≡ railway) }
        ensures trains { IfOk result (λ known. known.trains ≡ trains) }
    {
        let places = places_of(alloc, railway.stops.as_slice())?;
        Ok(Known {
            railway,
            trains,
            places,
        })
    }

    /// The network.
    pub fn railway(&self) -> &Named
        ensures { result.now ≡ self.now.railway }
    {
        &self.railway
    }

    /// The trains.
    pub fn trains(&self) -> &Trains
        ensures { result.now ≡ self.now.trains }
    {
        &self.trains
    }

    /// The number of the operational point of this name.
    pub(crate) fn stop(&self, name: &[u8]) -> Option<u32>
        ensures { result ≡ number_of name.now self.now.railway.stops }
    {
        place_in(&self.places, name)
    }

    /// The train of this name.
    pub(crate) fn train(&self, name: &[u8]) -> Option<&Train>
        ensures { option_map (λ train. train.now) result ≡ train_named name.now self.now.trains }
    {
        self.trains.find(name)
    }

    /// How many zones there are.
    pub(crate) fn zones(&self) -> u32
        ensures { result ≡ self.now.railway.network.zones }
    {
        self.railway.network.zones
    }

    /// How many blocks there are.
    pub fn blocks(&self) -> u32
        ensures { result ≡ length self.now.railway.network.blocks }
    {
        self.railway.network.blocks.len() as u32
    }
}
