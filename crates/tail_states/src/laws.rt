//! Laws of places and of closed members, each on a function that calls other laws alone.

ghost use Rattle.tail_states.specs.Alike.{WindowsChangeNoPlaces};
ghost use Rattle.tail_states.specs.Asked.{PlacesMayBeCut, SoundNetworksAreAsked};
ghost use Rattle.tail_states.specs.Closing.{ExcludesAllPaths, ExcludesEarlierPaths};
ghost use Rattle.tail_states.specs.Spots.{SoundNetworksAreRun, SpotsBoundPlaces};

use rail_types::networks_without_flaws;
use stair_pieces::{a_path_fits_run_by_run, a_path_is_a_list_of_moves};

/// A request within its limits may be asked of a network without a flaw.
pub fn sound_networks_are_asked()
    ensures { SoundNetworksAreAsked }
{
    networks_without_flaws();
}

/// Where members are closed below a tick, each path that could be granted ends at that tick or
/// later; and where they are closed, no path could be granted.
pub fn closed_members_exclude_paths()
    ensures earlier { ExcludesEarlierPaths }
    ensures all { ExcludesAllPaths }
{
    a_path_is_a_list_of_moves();
    a_path_fits_run_by_run();
}

/// Two requests that differ in their windows alone have the same places, and the same moves.
pub fn windows_change_no_places()
    ensures { WindowsChangeNoPlaces }
{}

/// Of the start place and of each place of a request pieces and standing zones may be asked.
pub fn places_may_be_cut()
    ensures { PlacesMayBeCut }
{}

/// A train within its limits may run on a network without a flaw.
pub fn sound_networks_are_run()
    ensures { SoundNetworksAreRun }
{
    networks_without_flaws();
}

/// Where the spots of a train are few enough for the stops of a request, the request has no more
/// places than are searched.
pub fn spots_bound_places()
    ensures { SpotsBoundPlaces }
{}
