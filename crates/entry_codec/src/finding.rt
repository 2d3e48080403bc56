//! Fields of a body found one after another, for which no memory is taken.

ghost use Rattle.std.specs.Prelude.{◌≡◌, IfOk};
ghost use Rattle.std.specs.List.{list_all};
ghost use Rattle.std.specs.Str.{is_utf8};
ghost use Rattle.std.specs.Int.{w32, w64};
ghost use Rattle.rail_types.specs.Limits.{is_between, is_tick, is_name_byte};
ghost use Rattle.entry_codec.specs.Reading.{Finds, FindsBy, train_found, is_behind, owner_field};
ghost use Rattle.entry_codec.specs.Reading.{train_name_field, reason_field, byte_field};
ghost use Rattle.entry_codec.specs.Reading.{bytes_field, number_field, signed_field, limited_field};
ghost use Rattle.entry_codec.specs.Reading.{position_field, tick_field, later_field};
ghost use Rattle.entry_codec.specs.Reading.{next_zone_field, begin_field, next_claim_field};
ghost use Rattle.entry_codec.specs.Reading.{flag_field, window_field, claim_field, train_field};
ghost use Rattle.entry_codec.specs.Reading.{stop_field, run_field, kind_field, meant, if_so};

use crate::faults::Wrong;
use crate::kinds::Kind;
use byte_fields::Fields;
use no_memory::NoMemory;
use rail_types::{
    Claim, MAX_ACCEL_MM_S2, MAX_ALLOWANCE_PERCENT, MAX_DWELL, MAX_NUMBER, MAX_OWNER_BYTES,
    MAX_REASON_BYTES, MAX_SPEED_MM_S, MAX_TICK, MAX_TRAIN_LENGTH_M, MAX_TRAIN_NAME_BYTES, Name,
    Run, Span, Stop, Tick, Train, Window,
};
use std::alloc::Global;

#[tactic(auto, using(crate::proofs::Fields::byte_ends))]
fn find_byte(fields: &mut Fields) -> Result<u8, Wrong>
    ensures { Finds fields.new result (byte_field fields.old) }
{
    Ok(fields.u8()?)
}

#[tactic(auto, using(crate::proofs::Fields::four_end))]
pub(crate) fn find_number(fields: &mut Fields) -> Result<u32, Wrong>
    ensures { Finds fields.new result (number_field w32 fields.old) }
{
    Ok(fields.u32()?)
}

#[tactic(auto, using(crate::proofs::Fields::eight_end))]
fn find_long_number(fields: &mut Fields) -> Result<u64, Wrong>
    ensures { Finds fields.new result (number_field w64 fields.old) }
{
    Ok(fields.u64()?)
}

#[tactic(auto, using(crate::proofs::Fields::signed_ends))]
fn find_signed(fields: &mut Fields) -> Result<i64, Wrong>
    ensures { Finds fields.new result (signed_field fields.old) }
{
    Ok(fields.i64()?)
}

#[tactic(auto, using(crate::proofs::Fields::bytes_end))]
fn find_bytes<'a>(fields: &mut Fields<'a>, count: usize) -> Result<&'a [u8], Wrong>
    ensures { FindsBy (λ b. b.now) fields.new result (bytes_field count fields.old) }
{
    Ok(fields.bytes(count)?)
}

#[tactic(auto, unfolding(crate::specs::Reading::limited_field))]
pub(crate) fn find_limited(fields: &mut Fields, least: u32, most: u32) -> Result<u32, Wrong>
    ensures { Finds fields.new result (limited_field least most fields.old) }
{
    let at = fields.at();
    let number = find_number(fields)?;
    if least <= number && number <= most {
        Ok(number)
    } else {
        Err(Wrong { at })
    }
}

#[tactic(auto, unfolding(crate::specs::Reading::position_field))]
pub(crate) fn find_position(fields: &mut Fields) -> Result<u64, Wrong>
    ensures { Finds fields.new result (position_field fields.old) }
{
    let at = fields.at();
    let number = find_long_number(fields)?;
    if number <= MAX_NUMBER {
        Ok(number)
    } else {
        Err(Wrong { at })
    }
}

fn is_tick(tick: &Tick) -> bool
    ensures { result ≡ is_tick tick.now }
{
    -MAX_TICK <= *tick && *tick <= MAX_TICK
}

#[tactic(auto, unfolding(crate::specs::Reading::tick_field), using(crate::proofs::Fields::passed))]
pub(crate) fn find_tick(fields: &mut Fields) -> Result<Tick, Wrong>
    ensures { Finds fields.new result (tick_field fields.old) }
{
    let at = fields.at();
    let tick = find_signed(fields)?;
    if is_tick(&tick) {
        Ok(tick)
    } else {
        Err(Wrong { at })
    }
}

#[tactic(auto, unfolding(crate::specs::Reading::window_field))]
pub(crate) fn find_window(fields: &mut Fields) -> Result<Window, Wrong>
    ensures { Finds fields.new result (window_field fields.old) }
{
    let from = find_tick(fields)?;
    let to = find_tick(fields)?;
    Ok(Window { from, to })
}

#[tactic(auto, unfolding(crate::specs::Reading::later_field), using(crate::proofs::Fields::passed))]
fn find_later_tick(fields: &mut Fields, from: &Tick) -> Result<Tick, Wrong>
    ensures { Finds fields.new result (later_field from.now fields.old) }
{
    let at = fields.at();
    let tick = find_signed(fields)?;
    if is_tick(&tick) && *from < tick {
        Ok(tick)
    } else {
        Err(Wrong { at })
    }
}

#[tactic(auto, unfolding(crate::specs::Reading::claim_field), using(crate::proofs::Fields::passed))]
pub(crate) fn find_claim(fields: &mut Fields) -> Result<Claim, Wrong>
    ensures { Finds fields.new result (claim_field fields.old) }
{
    let zone = find_number(fields)?;
    let from = find_tick(fields)?;
    let to = find_later_tick(fields, &from)?;
    let span = Span { from, to };
    Ok(Claim { zone, span })
}

#[tactic(auto, unfolding(crate::specs::Reading::next_zone_field))]
fn find_next_zone(fields: &mut Fields, before: &Claim) -> Result<u32, Wrong>
    ensures { Finds fields.new result (next_zone_field before.now fields.old) }
{
    let at = fields.at();
    let zone = find_number(fields)?;
    if before.zone <= zone {
        Ok(zone)
    } else {
        Err(Wrong { at })
    }
}

fn is_behind(before: &Claim, zone: u32, from: &Tick) -> bool
    ensures { result ≡ is_behind before.now zone from.now }
{
    is_tick(from) && (before.zone < zone || before.span.to < *from)
}

#[tactic(auto, unfolding(crate::specs::Reading::begin_field), using(crate::proofs::Fields::passed))]
fn find_begin(fields: &mut Fields, before: &Claim, zone: u32) -> Result<Tick, Wrong>
    ensures { Finds fields.new result (begin_field before.now zone fields.old) }
{
    let at = fields.at();
    let from = find_signed(fields)?;
    if is_behind(before, zone, &from) {
        Ok(from)
    } else {
        Err(Wrong { at })
    }
}

#[tactic(auto, unfolding(crate::specs::Reading::next_claim_field))]
pub(crate) fn find_next_claim(fields: &mut Fields, before: &Claim) -> Result<Claim, Wrong>
    ensures { Finds fields.new result (next_claim_field before.now fields.old) }
{
    let zone = find_next_zone(fields, before)?;
    let from = find_begin(fields, before, zone)?;
    let to = find_later_tick(fields, &from)?;
    let span = Span { from, to };
    Ok(Claim { zone, span })
}

#[tactic(auto, unfolding(crate::specs::Reading::flag_field))]
fn find_flag(fields: &mut Fields) -> Result<bool, Wrong>
    ensures { Finds fields.new result (flag_field fields.old) }
{
    let at = fields.at();
    match find_byte(fields)? {
        0 => Ok(false),
        1 => Ok(true),
        _ => Err(Wrong { at }),
    }
}

#[tactic(auto, unfolding(crate::specs::Reading::stop_field))]
pub(crate) fn find_stop(fields: &mut Fields) -> Result<Stop, Wrong>
    ensures { Finds fields.new result (stop_field fields.old) }
{
    let stop = find_number(fields)?;
    let dwell = find_limited(fields, 0, MAX_DWELL)?;
    Ok(Stop { stop, dwell })
}

#[tactic(auto, unfolding(crate::specs::Reading::run_field), using(crate::proofs::Fields::passed))]
pub(crate) fn find_run(fields: &mut Fields) -> Result<Run, Wrong>
    ensures { Finds fields.new result (run_field fields.old) }
{
    let block = find_number(fields)?;
    let enter = find_tick(fields)?;
    let leave = find_tick(fields)?;
    let stops = find_flag(fields)?;
    Ok(Run {
        block,
        enter,
        leave,
        stops,
    })
}

#[tactic(auto, unfolding(crate::specs::Reading::kind_field))]
pub(crate) fn find_kind(fields: &mut Fields) -> Result<Kind, Wrong>
    ensures { Finds fields.new result (kind_field fields.old) }
{
    let at = fields.at();
    match find_byte(fields)? {
        1 => Ok(Kind::Hold),
        2 => Ok(Kind::Asked),
        3 => Ok(Kind::Pinned),
        4 => Ok(Kind::Free),
        5 => Ok(Kind::Reasoned),
        _ => Err(Wrong { at }),
    }
}

fn is_name_byte(byte: u8) -> bool
    ensures { result ≡ is_name_byte byte }
{
    matches!(byte, b'A'..=b'Z' | b'a'..=b'z' | b'0'..=b'9' | b'_' | b'-')
}

fn is_client_name(name: &[u8]) -> bool
    ensures { result ≡ list_all is_name_byte name.now }
{
    name.iter().all(|byte| is_name_byte(*byte))
}

#[tactic(auto, using(crate::proofs::Texts::text_passes, crate::proofs::Texts::other_fails))]
fn is_text(name: &[u8]) -> bool
    ensures { result ≡ is_utf8 name.now }
{
    match str::from_utf8(name) {
        Ok(_) => true,
        Err(_) => false,
    }
}

// The count of a name's bytes, which stands before them.
fn find_name_count(fields: &mut Fields, most: usize) -> Result<usize, Wrong>
    ensures { Finds fields.new result (meant (if_so (is_between 1 most)) byte_field fields.old) }
{
    let at = fields.at();
    let count = usize::from(find_byte(fields)?);
    if 1 <= count && count <= most {
        Ok(count)
    } else {
        Err(Wrong { at })
    }
}

#[tactic(auto, unfolding(crate::specs::Reading::name_field))]
pub(crate) fn find_owner<'a>(fields: &mut Fields<'a>) -> Result<&'a [u8], Wrong>
    ensures { FindsBy (λ b. b.now) fields.new result (owner_field fields.old) }
{
    let count = find_name_count(fields, MAX_OWNER_BYTES)?;
    let at = fields.at();
    let name = find_bytes(fields, count)?;
    if is_client_name(name) {
        Ok(name)
    } else {
        Err(Wrong { at })
    }
}

#[tactic(auto, unfolding(crate::specs::Reading::name_field))]
fn find_train_name<'a>(fields: &mut Fields<'a>) -> Result<&'a [u8], Wrong>
    ensures { FindsBy (λ b. b.now) fields.new result (train_name_field fields.old) }
{
    let count = find_name_count(fields, MAX_TRAIN_NAME_BYTES)?;
    let at = fields.at();
    let name = find_bytes(fields, count)?;
    if is_text(name) {
        Ok(name)
    } else {
        Err(Wrong { at })
    }
}

#[tactic(auto, unfolding(crate::specs::Reading::name_field))]
pub(crate) fn find_reason<'a>(fields: &mut Fields<'a>) -> Result<&'a [u8], Wrong>
    ensures { FindsBy (λ b. b.now) fields.new result (reason_field fields.old) }
{
    let count = find_name_count(fields, MAX_REASON_BYTES)?;
    let reason = find_bytes(fields, count)?;
    Ok(reason)
}

/// A train whose name stands in the body.
#[derive(Debug, Drop)]
pub(crate) struct FoundTrain<'a> {
    pub name: &'a [u8],
    pub length_m: u32,
    pub speed: u32,
    pub accel: u32,
    pub brake: u32,
    pub allowance: u32,
}

impl FoundTrain<'_> {
    /// The train with a name of its own.
    pub(crate) fn keep(&self, alloc: Global) -> Result<Train, NoMemory>
        ensures { IfOk result (λ train. train ≡ train_found self.now) }
    {
        Ok(Train {
            name: Name::from_bytes(alloc, self.name)?,
            length_m: self.length_m,
            speed: self.speed,
            accel: self.accel,
            brake: self.brake,
            allowance: self.allowance,
        })
    }
}

#[tactic(auto, unfolding(crate::specs::Reading::train_field))]
pub(crate) fn find_train<'a>(fields: &mut Fields<'a>) -> Result<FoundTrain<'a>, Wrong>
    ensures { FindsBy train_found fields.new result (train_field fields.old) }
{
    let name = find_train_name(fields)?;
    let length_m = find_limited(fields, 1, MAX_TRAIN_LENGTH_M)?;
    let speed = find_limited(fields, 1, MAX_SPEED_MM_S)?;
    let accel = find_limited(fields, 1, MAX_ACCEL_MM_S2)?;
    let brake = find_limited(fields, 1, MAX_ACCEL_MM_S2)?;
    let allowance = find_limited(fields, 0, MAX_ALLOWANCE_PERCENT)?;
    Ok(FoundTrain {
        name,
        length_m,
        speed,
        accel,
        brake,
        allowance,
    })
}
