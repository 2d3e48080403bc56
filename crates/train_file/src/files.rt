//! From the bytes of a file to its trains.

ghost use Rattle.std.specs.Prelude.{◌≡◌, ℕ, List as list_of, IfOk};
ghost use Rattle.serde_json.specs.View.{view};
ghost use Rattle.decimal_quote.specs.Quoted.{IsQuoted};
ghost use Rattle.json_fields.specs.Reading.{or_fault};
ghost use Rattle.json_fields.specs.Texts.{data_of};
ghost use Rattle.train_file.specs.declared.faults.TrainFault.TheVariants.{NotJson};
ghost use Rattle.train_file.specs.Fields.{Gives};
ghost use Rattle.train_file.specs.Trains.{AreTrains, object_of, trains_at};

use crate::faults::{TrainFault, What};
use crate::fields::list;
use crate::objects::{Trains, read_list};
use json_fields::{Place, Unread, value_of};
use rail_types::MAX_TIMETABLE_FILE_BYTES;
use serde_json::Value;
use std::alloc::Global;

/// Reads a file of trains, a JSON object whose list `trains` has for each train `name`, `length_m`,
/// `speed`, `accel`, `brake` and `allowance`. Answers the first fault: the file's size, its form,
/// then train by train and field by field in this order; and want of memory.
pub fn read_trains(alloc: Global, bytes: &[u8]) -> Result<Trains, TrainFault>
    ensures read { (quoted : list_of ℕ) → IsQuoted bytes.now quoted →
        Gives (λ trains. trains) result (trains_at bytes.now quoted) }
    ensures sound { IfOk result AreTrains }
{
    if bytes.len() as u64 > MAX_TIMETABLE_FILE_BYTES {
        return Err(TrainFault::Limit {
            what: What::File,
            count: MAX_TIMETABLE_FILE_BYTES as i64 + 1,
        });
    }
    let file = parsed(alloc, bytes)?;
    let trains = read_object(alloc, &file)?;
    Ok(trains)
}

fn parsed(alloc: Global, bytes: &[u8]) -> Result<Value, TrainFault>
    ensures { (quoted : list_of ℕ) → IsQuoted bytes.now quoted →
        Gives view result (or_fault NotJson (data_of quoted)) }
{
    match value_of(alloc, bytes) {
        Ok(value) => Ok(value),
        Err(Unread::NotJson) => Err(TrainFault::NotJson),
        Err(Unread::Memory) => Err(TrainFault::Memory),
    }
}

fn read_object(alloc: Global, file: &Value) -> Result<Trains, TrainFault>
    ensures read { Gives (λ trains. trains) result (object_of (view file.now)) }
    ensures sound { IfOk result AreTrains }
{
    let place = Place::of_file();
    if !file.is_object() {
        return Err(TrainFault::Kind {
            spot: place.spot(alloc, "file")?,
        });
    }
    let items = list(alloc, &place, file, "trains")?;
    let trains = read_list(alloc, items)?;
    Ok(trains)
}
