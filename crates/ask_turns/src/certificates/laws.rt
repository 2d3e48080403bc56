//! Laws of the certificates of the search, each on a function that calls other laws alone.

ghost use Rattle.ask_turns.specs.CertificateLaws.{CertificatesCanBeTold, EarlierRefusalsPass};
ghost use Rattle.ask_turns.specs.CertificateLaws.{RefusalsPass};

use path_labels::pieces::a_path_is_a_list_of_moves;
use path_labels::tails::{places_may_be_cut, sound_networks_are_asked, windows_change_no_places};

/// The certificate of the search passes the check: beside the answer that there is no path
/// for the request, and beside a path for the request whose window of arrival ends one tick
/// before the path's last leave.
pub fn certificates_pass()
    ensures refused { RefusalsPass }
    ensures earlier { EarlierRefusalsPass }
{
    windows_change_no_places();
    a_path_is_a_list_of_moves();
}

/// A certificate of a request that a line can ask for can be told in a text.
pub fn certificates_can_be_told()
    ensures { CertificatesCanBeTold }
{
    sound_networks_are_asked();
    places_may_be_cut();
}
