//! The settings of a base file.

ghost use Rattle.std.specs.Prelude.{◌≡◌, ◌≤◌, IfOk};
ghost use Rattle.serde_json.specs.View.{view};
ghost use Rattle.rail_types.specs.Limits.{IsSettingsWithinLimits};
ghost use Rattle.rail_types.specs.declared.limits.TheConstants.{MAX_JOURNAL_BYTES};
ghost use Rattle.rail_types.specs.declared.limits.TheConstants.{MIN_JOURNAL_BYTES};
ghost use Rattle.base_file.specs.Base.{journal_bytes_in, settings_in};
ghost use Rattle.base_file.specs.Fields.{Gives};

use crate::faults::{BaseFault, What};
use crate::fields::{flag, number, small_number};
use json_fields::Place;
use rail_types::{
    MAX_HORIZON, MAX_JOURNAL_BYTES, MAX_RELEASE, MAX_SETTING, MAX_TICK_S, MIN_JOURNAL_BYTES,
    Settings,
};
use serde_json::Value;
use std::alloc::Global;

/// The settings, field by field in their order.
pub(crate) fn read_settings(
    alloc: Global,
    place: &Place,
    file: &Value,
) -> Result<Settings, BaseFault>
    ensures settings { Gives (λ settings. settings) result
        (settings_in place.now (view file.now)) }
    ensures within { IfOk result (λ settings. IsSettingsWithinLimits settings) }
{
    let tick_s = small_number(alloc, place, file, "tick_s", What::TickS, 1, MAX_TICK_S)?;
    let setting = small_number(alloc, place, file, "setting", What::Setting, 0, MAX_SETTING)?;
    let release = small_number(alloc, place, file, "release", What::Release, 0, MAX_RELEASE)?;
    let horizon = small_number(alloc, place, file, "horizon", What::Horizon, 1, MAX_HORIZON)?;
    let journal_bytes = journal_bytes(alloc, place, file)?;
    let speed_loss = flag(alloc, place, file, "speed_loss", What::SpeedLoss)?;
    Ok(Settings {
        tick_s,
        setting,
        release,
        horizon,
        journal_bytes,
        speed_loss,
    })
}

fn journal_bytes(alloc: Global, place: &Place, file: &Value) -> Result<u64, BaseFault>
    ensures bytes { Gives (λ bytes. bytes) result (journal_bytes_in place.now (view file.now)) }
    ensures least { IfOk result (λ bytes. MIN_JOURNAL_BYTES ≤ bytes) }
    ensures most { IfOk result (λ bytes. bytes ≤ MAX_JOURNAL_BYTES) }
{
    number(
        alloc,
        place,
        file,
        "journal_bytes",
        What::JournalBytes,
        MIN_JOURNAL_BYTES,
        MAX_JOURNAL_BYTES,
    )
}
