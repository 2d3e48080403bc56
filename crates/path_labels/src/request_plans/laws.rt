//! Laws of plans, each on a function that calls other laws alone.

ghost use Rattle.path_labels.specs.Searched.{PlansMayBeSearched, PlansOverMayBeSearched};

use stair_pieces::pieces_are_claims;
use tail_states::{places_may_be_cut, sound_networks_are_asked};

/// The plan of a request within its limits, in a network without a flaw, may be searched in each
/// book of as many zones as the network has.
pub fn plans_may_be_searched()
    ensures { PlansMayBeSearched }
{
    sound_networks_are_asked();
    places_may_be_cut();
    pieces_are_claims();
}

/// The same of a plan over more places than those of the request, of which pieces may be asked.
pub fn plans_over_may_be_searched()
    ensures { PlansOverMayBeSearched }
{
    sound_networks_are_asked();
    pieces_are_claims();
}
