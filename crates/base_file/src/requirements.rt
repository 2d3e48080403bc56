//! The requirements of a train: the zones that it takes, and when.

ghost use Rattle.std.specs.Prelude.{◌≡◌, ◌<◌, ◌≤◌, [], All, IfOk, OnOk, codes, length, map};
ghost use Rattle.serde_json.specs.View.{view};
ghost use Rattle.json_fields.specs.Places.{item_of, spot_of};
ghost use Rattle.rail_types.specs.Limits.{IsTick};
ghost use Rattle.rail_types.specs.Occupation.{HasTicks};
ghost use Rattle.rail_types.specs.declared.limits.TheConstants.{MAX_BASE_CLAIMS};
ghost use Rattle.base_file.specs.Claims.{GivesNextClaim, claim_in, read_claims, span_in, span_of};
ghost use Rattle.base_file.specs.Fields.{Gives};
ghost use Rattle.base_file.specs.Sound.{IsClaimOn};

use crate::faults::{BaseFault, What};
use crate::fields::{object, tick, zone};
use json_fields::Place;
use rail_types::{Claim, List, Span};
use serde_json::Value;
use std::alloc::Global;

/// The claims of a list of requirements, on so many zones.
pub(crate) fn read_list(
    alloc: Global,
    place: &Place,
    list: &[Value],
    zones: u32,
) -> Result<List<Claim>, BaseFault>
    requires { length list.now ≤ MAX_BASE_CLAIMS }
    ensures claims { Gives (λ claims. claims) result
        (read_claims zones place.now [] (map view list.now)) }
    ensures count { IfOk result (λ claims. length claims ≡ length list.now) }
    ensures sound { IfOk result (λ claims. All (IsClaimOn zones) claims) }
{
    let mut claims = List::new(alloc);
    'list: for value in list {
        read_next(alloc, place, value, zones, &mut claims)?;
    }
    Ok(claims)
}

/// The claim behind those that were read.
fn read_next(
    alloc: Global,
    place: &Place,
    value: &Value,
    zones: u32,
    claims: &mut List<Claim>,
) -> Result<(), BaseFault>
    requires room { length claims.old < MAX_BASE_CLAIMS }
    ensures claim { GivesNextClaim claims.old claims.new result
        (claim_in zones (item_of place.now (codes "requirements") (length claims.old))
        (view value.now)) }
    ensures sound { OnOk result
        (All (IsClaimOn zones) claims.old → All (IsClaimOn zones) claims.new) }
{
    let item = place.item("requirements", claims.len() as u32);
    push_claim(alloc, &item, value, zones, claims)
}

fn push_claim(
    alloc: Global,
    item: &Place,
    value: &Value,
    zones: u32,
    claims: &mut List<Claim>,
) -> Result<(), BaseFault>
    ensures claim { GivesNextClaim claims.old claims.new result
        (claim_in zones item.now (view value.now)) }
    ensures sound { OnOk result
        (All (IsClaimOn zones) claims.old → All (IsClaimOn zones) claims.new) }
{
    let claim = read_claim(alloc, item, value, zones)?;
    claims.push(claim)?;
    Ok(())
}

fn read_claim(alloc: Global, place: &Place, value: &Value, zones: u32) -> Result<Claim, BaseFault>
    ensures claim { Gives (λ claim. claim) result (claim_in zones place.now (view value.now)) }
    ensures sound { IfOk result (λ claim. IsClaimOn zones claim) }
{
    object(alloc, place, value)?;
    let zone = zone(alloc, place, value, "zone", zones)?;
    let span = read_span(alloc, place, value)?;
    Ok(Claim { zone, span })
}

fn read_span(alloc: Global, place: &Place, value: &Value) -> Result<Span, BaseFault>
    ensures span { Gives (λ span. span) result (span_in place.now (view value.now)) }
    ensures from { IfOk result (λ span. IsTick span.from) }
    ensures to { IfOk result (λ span. IsTick span.to) }
    ensures ordered { IfOk result (λ span. HasTicks span) }
{
    let span = Span {
        from: tick(alloc, place, value, "from", What::From)?,
        to: tick(alloc, place, value, "to", What::To)?,
    };
    check_span(alloc, place, &span)?;
    Ok(span)
}

/// Refuses a span without ticks.
fn check_span(alloc: Global, place: &Place, span: &Span) -> Result<(), BaseFault>
    ensures span { Gives (λ done. span.now) result
        (span_of (spot_of place.now (codes "to")) span.now.from span.now.to) }
    ensures some { IfOk result (λ done. HasTicks span.now) }
{
    if span.from < span.to {
        return Ok(());
    }
    Err(BaseFault::EmptySpan {
        spot: place.spot(alloc, "to")?,
    })
}
