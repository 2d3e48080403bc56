//! From the bytes of a file to its infrastructure.

ghost use Rattle.std.specs.Prelude.{◌≡◌, ℕ, List as list_of, None, IfErr, IfOk};
ghost use Rattle.serde_json.specs.View.{view};
ghost use Rattle.decimal_quote.specs.Quoted.{IsQuoted};
ghost use Rattle.json_fields.specs.Texts.{data_of};
ghost use Rattle.infra_fields.specs.Fields.{Gives};
ghost use Rattle.infra_fields.specs.declared.faults.InfraFault.TheVariants.{Memory, NotJson};
ghost use Rattle.infra_fields.specs.declared.file_values.halves.Half.TheVariants.{Second};
ghost use Rattle.rail_types.specs.Infras.{IsInfra};
ghost use Rattle.railjson_read.specs.Files.{first_at, first_of, infra_at, others_at, text_at};
ghost use Rattle.railjson_read.specs.Files.{KeepsRead};
ghost use Rattle.railjson_read.specs.Landmarks.{AreFirst, AreOthers};

use crate::wholes::{FirstLists, Landmarks, Others, first_of, infra_of, others_of};
use infra_fields::{Half, InfraFault, QuotedFile, What};
use json_fields::{Place, Unread};
use rail_types::MAX_NETWORK_FILE_BYTES;
use rail_types::infra_types::Infra;
use serde_json::Value;
use std::alloc::Global;

/// Reads an infrastructure, a JSON object with the lists `track_sections`, `switches`, `detectors`,
/// `buffer_stops`, `signals`, `routes`, `operational_points` and `speed_sections` of OSRD's
/// RailJSON. Answers the first fault: the file's size, its form, then list by list in this order,
/// object by object and field by field; and want of memory. Names of other objects become their
/// numbers, and each number names an object of its list. The bytes are let go once they are quoted.
pub fn read_infra(alloc: Global, bytes: Vec<u8>) -> Result<Infra, InfraFault>
    ensures read { (quoted : list_of ℕ) → IsQuoted bytes.items quoted →
        Gives (λ infra. infra) result (infra_at bytes.items quoted) }
    ensures sound { IfOk result IsInfra }
{
    if bytes.len() as u64 > MAX_NETWORK_FILE_BYTES {
        return Err(InfraFault::Limit {
            what: What::File,
            count: MAX_NETWORK_FILE_BYTES as i64 + 1,
        });
    }
    read_text(alloc, bytes)
}

/// The infrastructure of a file that is not too long. What is kept of a half of its value is let go
/// before the other half is read, and the text before the lists behind the first are made.
fn read_text(alloc: Global, bytes: Vec<u8>) -> Result<Infra, InfraFault>
    ensures read { (quoted : list_of ℕ) → IsQuoted bytes.items quoted →
        Gives (λ infra. infra) result (text_at quoted) }
    ensures sound { IfOk result IsInfra }
{
    let mut file = quoted(alloc, bytes)?;
    let first = read_first(alloc, &mut file)?;
    let others = read_others(alloc, file, &first.landmarks);
    infra_of(first, others)
}

/// The text of a file, its numbers quoted. `NotJson` where it is no UTF-8, which has no value;
/// `Memory` where memory was wanted.
fn quoted(alloc: Global, bytes: Vec<u8>) -> Result<QuotedFile, InfraFault>
    ensures text { IfOk result
        (λ file. (quoted : list_of ℕ) → IsQuoted bytes.items quoted → quoted ≡ file) }
    ensures fault { IfErr result (λ fault. (fault ≡ Memory → ⊥) → (quoted : list_of ℕ)
        → IsQuoted bytes.items quoted → (fault ≡ NotJson) × (data_of quoted ≡ None)) }
{
    match QuotedFile::of(alloc, bytes) {
        Ok(file) => Ok(file),
        Err(Unread::NotJson) => Err(InfraFault::NotJson),
        Err(Unread::Memory) => Err(InfraFault::Memory),
    }
}

/// The first lists of a file.
fn read_first(alloc: Global, file: &mut QuotedFile) -> Result<FirstLists, InfraFault>
    ensures same { file.new ≡ file.old }
    ensures read { Gives (λ first. first) result (first_at file.old) }
    ensures sound { IfOk result AreFirst }
{
    match kept(alloc, file, Half::First) {
        Ok(value) => read_object(alloc, &value),
        Err(fault) => Err(fault),
    }
}

/// The lists behind those, with the names of these.
fn read_others(alloc: Global, file: QuotedFile, landmarks: &Landmarks) -> Result<Others, InfraFault>
    ensures read { Gives (λ others. others) result (others_at landmarks.now file) }
    ensures sound { IfOk result (AreOthers landmarks.now) }
{
    match last_kept(alloc, file) {
        Ok(value) => others_of(alloc, &value, landmarks),
        Err(fault) => Err(fault),
    }
}

/// What is kept of a file for its second half. The file is let go.
fn last_kept(alloc: Global, file: QuotedFile) -> Result<Value, InfraFault>
    ensures { KeepsRead Second result (data_of file) }
{
    let mut file = file;
    kept(alloc, &mut file, Half::Second)
}

/// What is kept of the value of a file for a half.
fn kept(alloc: Global, file: &mut QuotedFile, half: Half) -> Result<Value, InfraFault>
    ensures same { file.new ≡ file.old }
    ensures kept { KeepsRead half result (data_of file.old) }
{
    match file.half(alloc, half) {
        Ok(value) => Ok(value),
        Err(Unread::NotJson) => Err(InfraFault::NotJson),
        Err(Unread::Memory) => Err(InfraFault::Memory),
    }
}

fn read_object(alloc: Global, file: &Value) -> Result<FirstLists, InfraFault>
    ensures read { Gives (λ first. first) result (first_of (view file.now)) }
    ensures sound { IfOk result AreFirst }
{
    if !file.is_object() {
        let place = Place::of_file();
        return Err(InfraFault::Kind {
            spot: place.spot(alloc, "file")?,
        });
    }
    first_of(alloc, file)
}
