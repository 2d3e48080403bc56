//! What a client repeats when it sends a line again.

ghost use Rattle.std.specs.Prelude.{◌≡◌, ◌↔◌, IsTrue};
ghost use Rattle.grant_log.specs.Content.{HaveSameContent, has_same_content as same_content};

use rail_types::{Claim, Deed, Wanted};

pub(crate) fn has_same_content(one: &Deed, other: &Deed) -> bool
    ensures { result ≡ same_content one.now other.now }
{
    have_same_content(one, other)
}

fn have_same_content(one: &Deed, other: &Deed) -> bool
    ensures { IsTrue result ↔ HaveSameContent one.now other.now }
{
    match (one, other) {
        (Deed::Hold(claims, reason), Deed::Hold(others, other_reason)) => {
            same_claims(claims.as_slice(), others.as_slice()) && reason.is_same(other_reason)
        }
        (Deed::Grant(Wanted::Asked(asked), _), Deed::Grant(Wanted::Asked(again), _)) => {
            asked.get().is_same(again.get())
        }
        (Deed::Grant(Wanted::Pinned, path), Deed::Grant(Wanted::Pinned, again)) => {
            path.is_same(again)
        }
        (Deed::Free(at), Deed::Free(again)) => at == again,
        _ => false,
    }
}

fn same_claims(one: &[Claim], other: &[Claim]) -> bool
    ensures { IsTrue result ↔ (one.now ≡ other.now) }
{
    one == other
}
