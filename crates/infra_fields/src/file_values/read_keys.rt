//! Keys at which objects in lists of a file are read.

ghost use Rattle.std.specs.Prelude.{◌≡◌};
ghost use Rattle.infra_fields.specs.Kept.{is_list, is_object_key, is_route_key, is_read};

/// Whether an object is read at this key.
pub(crate) fn is_read(key: &str) -> bool
    ensures { result ≡ is_read key.now }
{
    is_object_key(key) || is_route_key(key) || is_list(key)
}

/// Whether it is the key of a list of objects in an object.
pub(crate) fn is_list(key: &str) -> bool
    ensures { result ≡ is_list key.now }
{
    key == "logical_signals"
}

// Of objects on tracks, and of switches.
fn is_object_key(key: &str) -> bool
    ensures { result ≡ is_object_key key.now }
{
    key == "id"
        || key == "track"
        || key == "position"
        || key == "direction"
        || key == "sight_distance"
        || key == "length"
        || key == "switch_type"
        || key == "ports"
        || key == "parts"
}

// Of routes, speed sections and logical signals.
fn is_route_key(key: &str) -> bool
    ensures { result ≡ is_route_key key.now }
{
    key == "entry_point"
        || key == "entry_point_direction"
        || key == "exit_point"
        || key == "switches_directions"
        || key == "release_detectors"
        || key == "speed_limit"
        || key == "track_ranges"
        || key == "signaling_system"
}
