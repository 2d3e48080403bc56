//! The train of the demo.

ghost use Rattle.std.specs.Prelude.{◌≡◌, ◌∷◌, [], codes, IfOk, IsTrue};
ghost use Rattle.demo_command.specs.Railways.{demo_train};

use command_files::train::{Trains, read_trains};
use no_memory::NoMemory;
use rail_types::Train;
use std::alloc::Global;

const TRAINS: &str = concat!(
    "{\"trains\":[{\"name\":\"F1\",\"length_m\":400,\"speed\":20000,",
    "\"accel\":200,\"brake\":250,\"allowance\":0}]}"
);

/// The one train. A file that tells it is read, since trains are made by reading them; that this
/// tells no other train is looked at again.
pub(crate) fn trains(alloc: Global) -> Result<Trains, NoMemory>
    ensures { IfOk result (λ trains. trains ≡ demo_train ∷ []) }
{
    let Ok(trains) = read_trains(alloc, TRAINS.as_bytes()) else {
        return Err(NoMemory);
    };
    if are_demo_trains(trains.as_slice()) {
        Ok(trains)
    } else {
        Err(NoMemory)
    }
}

fn are_demo_trains(trains: &[Train]) -> bool
    ensures { IsTrue result → trains.now ≡ demo_train ∷ [] }
{
    match trains {
        [train] => is_demo_train(train),
        _ => false,
    }
}

fn is_demo_train(train: &Train) -> bool
    ensures { IsTrue result → train.now ≡ demo_train }
{
    is_named(train.name.as_bytes())
        && train.length_m == 400
        && train.speed == 20_000
        && train.accel == 200
        && train.brake == 250
        && train.allowance == 0
}

fn is_named(name: &[u8]) -> bool
    ensures { IsTrue result → name.now ≡ codes "F1" }
{
    name == b"F1".as_slice()
}
