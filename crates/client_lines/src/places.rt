//! Names with their places in a list.

ghost use Rattle.std.specs.Prelude.{◌≡◌, ◌≤◌, length, IfOk};
ghost use Rattle.std.specs.Map.{lookup};
ghost use Rattle.std.specs.Str.{bytes_eq};
ghost use Rattle.rail_types.specs.declared.limits.TheConstants.{MAX_OBJECTS};
ghost use Rattle.client_lines.specs.Names.{HavePlaces};

use indexmap::IndexMap;
use no_memory::NoMemory;
use rail_types::Name;
use std::alloc::Global;

/// The names of a list, each with its first place there.
pub(crate) fn places_of(alloc: Global, names: &[Name]) -> Result<IndexMap<Vec<u8>, u32>, NoMemory>
    requires { length names.now ≤ MAX_OBJECTS }
    ensures { IfOk result (λ places. HavePlaces (λ key. key.items) 0 names.now places.entries) }
{
    let mut places = IndexMap::new(alloc);
    let mut at = names.len();
    while at > 0 {
        at -= 1;
        // A name that stands at several places keeps the first of them.
        let key = Vec::from_slice(alloc, names[at].as_bytes())?;
        places.insert(key, at as u32)?;
    }
    Ok(places)
}

/// The place of a name.
pub(crate) fn place_in(places: &IndexMap<Vec<u8>, u32>, name: &[u8]) -> Option<u32>
    ensures { result ≡ lookup (λ key. bytes_eq name.now key.items) places.now.entries }
{
    places.get(name).copied()
}
