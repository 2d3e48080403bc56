//! From the bytes of a file to a base timetable.

ghost use Rattle.std.specs.Prelude.{◌≡◌, ℕ, List as list_of, IfOk};
ghost use Rattle.serde_json.specs.View.{view};
ghost use Rattle.decimal_quote.specs.Quoted.{IsQuoted};
ghost use Rattle.json_fields.specs.Reading.{or_fault};
ghost use Rattle.json_fields.specs.Texts.{data_of};
ghost use Rattle.rail_types.specs.Limits.{IsSettingsWithinLimits};
ghost use Rattle.base_file.specs.declared.faults.BaseFault.TheVariants.{NotJson};
ghost use Rattle.base_file.specs.Base.{GivesBase, base_at, claims_in, object_of};
ghost use Rattle.base_file.specs.Fields.{Gives};
ghost use Rattle.base_file.specs.Sound.{AreClaimsOn, IsBaseOn};

use crate::faults::{BaseFault, What};
use crate::fields::list;
use crate::overlaps::refuse_overlap;
use crate::settings::read_settings;
use crate::trains::read_list_of_trains;
use json_fields::{Place, Unread, value_of};
use rail_types::{Base, BaseClaim, List, MAX_TIMETABLE_FILE_BYTES};
use serde_json::Value;
use std::alloc::Global;

/// Reads a base file on a network of so many zones: a JSON object with `tick_s`, `setting`,
/// `release`, `horizon`, `journal_bytes`, `speed_loss` (0 or 1, 0 where it is absent), and
/// `trains`, a list in which each train has a `name` and `requirements`, a list of `zone`, `from`
/// and `to` in ticks. The claims of a train are joined. Answers the first fault: the file's size,
/// its form, then field by field in this order and train by train, and last the first overlap of
/// two trains, by zone, then by the later of the two begins; and want of memory.
pub fn read_base(alloc: Global, bytes: &[u8], zones: u32) -> Result<Base, BaseFault>
    ensures read { (quoted : list_of ℕ) → IsQuoted bytes.now quoted →
        GivesBase result (base_at zones bytes.now quoted) }
    ensures sound { IfOk result (λ base. IsBaseOn zones base) }
{
    if bytes.len() as u64 > MAX_TIMETABLE_FILE_BYTES {
        return Err(BaseFault::Limit {
            what: What::File,
            count: MAX_TIMETABLE_FILE_BYTES as i64 + 1,
        });
    }
    let file = parsed(alloc, bytes)?;
    read_object(alloc, &file, zones)
}

fn parsed(alloc: Global, bytes: &[u8]) -> Result<Value, BaseFault>
    ensures { (quoted : list_of ℕ) → IsQuoted bytes.now quoted →
        Gives view result (or_fault NotJson (data_of quoted)) }
{
    match value_of(alloc, bytes) {
        Ok(value) => Ok(value),
        Err(Unread::NotJson) => Err(BaseFault::NotJson),
        Err(Unread::Memory) => Err(BaseFault::Memory),
    }
}

fn read_object(alloc: Global, file: &Value, zones: u32) -> Result<Base, BaseFault>
    ensures read { GivesBase result (object_of zones (view file.now)) }
    ensures sound { IfOk result (λ base. IsBaseOn zones base) }
{
    let base = read_fields(alloc, file, zones)?;
    refuse_overlap(alloc, &base.claims)?;
    Ok(base)
}

/// The base of a file, whether or not trains want one zone at once.
fn read_fields(alloc: Global, file: &Value, zones: u32) -> Result<Base, BaseFault>
    ensures base { Gives (λ base. base) result (object_of zones (view file.now)) }
    ensures settings { IfOk result (λ base. IsSettingsWithinLimits base.settings) }
    ensures claims { IfOk result (λ base. AreClaimsOn zones base.claims) }
{
    if !file.is_object() {
        return Err(BaseFault::Kind {
            spot: Place::of_file().spot(alloc, "file")?,
        });
    }
    let settings = read_settings(alloc, &Place::of_file(), file)?;
    let claims = read_claims(alloc, file, zones)?;
    Ok(Base { settings, claims })
}

fn read_claims(alloc: Global, file: &Value, zones: u32) -> Result<List<BaseClaim>, BaseFault>
    ensures claims { Gives (λ claims. claims) result (claims_in zones (view file.now)) }
    ensures sound { IfOk result (λ claims. AreClaimsOn zones claims) }
{
    let items = list(alloc, &Place::of_file(), file, "trains")?;
    read_list_of_trains(alloc, items, zones)
}
