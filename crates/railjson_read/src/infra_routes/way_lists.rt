//! The ways of a route across its switches.

ghost use Rattle.rail_types.specs.InfraIds.{id_of_switch};
ghost use Rattle.std.specs.Prelude.{◌≡◌, ◌<◌, ◌++◌, ◌∷◌, [], length, map, All, IfOk, OnOk};
ghost use Rattle.std.specs.Prelude.{string_bytes};
ghost use Rattle.std.specs.BTreeMap.{IsOrdered, insert_entry};
ghost use Rattle.std.specs.Ordering.{nat_cmp};
ghost use Rattle.serde_json.specs.Data.{Members};
ghost use Rattle.serde_json.specs.View.{view, members_view};
ghost use Rattle.json_fields.specs.Places.{spot_of};
ghost use Rattle.infra_fields.specs.Fields.{Gives};
ghost use Rattle.rail_types.specs.Infras.{AreWays};
ghost use Rattle.railjson_read.specs.Routes.{ways_at, ways_found, read_ways, way_in, way_field};
ghost use Rattle.railjson_read.specs.Routes.{ways_of};

use infra_fields::{InfraFault, group_named, limited};
use json_fields::{Place, Spot, escaped};
use no_memory::NoMemory;
use rail_types::id_lists::Listed;
use rail_types::infra_types::{Group, Switch, Way};
use rail_types::{List, Name};
use serde_json::{Map, Value};
use std::alloc::Global;
use std::collections::BTreeMap;

/// The ways of a route by ascending switch number, none where the field is absent.
pub(crate) fn ways(
    alloc: Global,
    place: &Place,
    value: &Value,
    switches: &Listed<Switch>,
) -> Result<List<Way>, InfraFault>
    ensures read { Gives (λ ways. ways) result
        (ways_at place.now (map id_of_switch switches.now) (view value.now)) }
    ensures within { IfOk result (AreWays (length switches.now)) }
{
    let Some(found) = value.get("switches_directions") else {
        return Ok(List::new(alloc));
    };
    ways_in(alloc, place, found, switches)
}

fn ways_in(
    alloc: Global,
    place: &Place,
    found: &Value,
    switches: &Listed<Switch>,
) -> Result<List<Way>, InfraFault>
    ensures read { Gives (λ ways. ways) result
        (ways_found place.now (map id_of_switch switches.now) (view found.now)) }
    ensures within { IfOk result (AreWays (length switches.now)) }
{
    let Some(members) = found.as_object() else {
        return Err(InfraFault::Kind {
            spot: place.spot(alloc, "switches_directions")?,
        });
    };
    let groups = read_groups(alloc, place, members, switches)?;
    let ways = ways_of(alloc, &groups)?;
    Ok(ways)
}

/// The groups of a route by switch number.
fn read_groups(
    alloc: Global,
    place: &Place,
    members: &Map<String, Value>,
    switches: &Listed<Switch>,
) -> Result<BTreeMap<u32, Group>, InfraFault>
    ensures read { Gives (λ groups. groups.entries) result
        (read_ways place.now (map id_of_switch switches.now) []
        (members_view members.now.entries)) }
    ensures within { IfOk result
        (λ groups. All (λ entry. entry.0 < length switches.now) groups.entries) }
{
    let mut groups = BTreeMap::new(alloc);
    'members: for (key, value) in members.iter() {
        let way = way(alloc, place, key, value, switches)?;
        put(&mut groups, way)?;
    }
    Ok(groups)
}

/// Puts the group of a switch among the others.
fn put(groups: &mut BTreeMap<u32, Group>, way: Way) -> Result<(), NoMemory>
    ensures { OnOk result
        (groups.new.entries ≡ insert_entry nat_cmp groups.old.entries way.switch way.group) }
{
    groups.insert(way.switch, way.group)?;
    Ok(())
}

fn way(
    alloc: Global,
    place: &Place,
    key: &String,
    value: &Value,
    switches: &Listed<Switch>,
) -> Result<Way, InfraFault>
    ensures read { Gives (λ way. way) result
        (way_in place.now (map id_of_switch switches.now) (string_bytes key.now) (view value.now)) }
    ensures within { IfOk result (λ way. way.switch < length switches.now) }
{
    let Some(word) = value.as_str() else {
        return Err(InfraFault::Kind {
            spot: way_spot(alloc, place, key.as_str())?,
        });
    };
    let id = limited(key.as_str())?;
    let Some(switch) = switches.number(id) else {
        return Err(InfraFault::Unknown {
            id: Name::from_bytes(alloc, id.as_bytes())?,
            spot: way_spot(alloc, place, key.as_str())?,
        });
    };
    Ok(Way {
        switch,
        group: group_named(word),
    })
}

fn way_spot(alloc: Global, place: &Place, key: &str) -> Result<Spot, NoMemory>
    ensures { IfOk result (λ spot. spot ≡ spot_of place.now (way_field key.now)) }
{
    let mut field = Vec::from_slice(alloc, b"switches_directions.")?;
    let name = escaped(alloc, key.as_bytes())?;
    field.extend_from_slice(name.as_slice())?;
    let spot = place.spot_of_bytes(alloc, field.as_slice())?;
    Ok(spot)
}

/// The ways of these groups in their order.
fn ways_of(alloc: Global, groups: &BTreeMap<u32, Group>) -> Result<List<Way>, NoMemory>
    ensures ways { IfOk result (λ ways. ways ≡ ways_of groups.now.entries) }
    ensures ordered { OnOk result (IsOrdered nat_cmp groups.now) }
{
    let mut ways = List::new(alloc);
    'groups: for (switch, group) in groups.iter() {
        ways.push(Way {
            switch: *switch,
            group: *group,
        })?;
    }
    Ok(ways)
}
