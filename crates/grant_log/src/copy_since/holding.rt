//! Claims that come to those that are held.

ghost use Rattle.std.specs.Prelude.{◌≡◌, All, AllPairs, length};
ghost use Rattle.rail_types.specs.Occupation.{Clash};
ghost use Rattle.occupation_book.specs.Held.{held, IsFree};
ghost use Rattle.grant_log.specs.Following.{Gains};
ghost use Rattle.grant_log.specs.Rooms.{HasRoomFor, MayBeHeld};

use occupation_book::Occupations;
use rail_types::{Claim, Owner};

// Holds these claims too. There must be room for them; they must be free, and no two of
// them clash. It takes no memory.
pub(crate) fn hold_all(book: &mut Occupations, claims: &[(Claim, Owner)])
    requires each { All (MayBeHeld (length book.old)) claims.now }
    requires free { All (λ one. IsFree (held book.old) one.0) claims.now }
    requires apart { AllPairs (λ one other. ¬ Clash one.0 other.0) claims.now }
    requires room { HasRoomFor book.old claims.now }
    ensures gained { Gains (held book.old) claims.now (held book.new) }
    ensures zones { length book.new ≡ length book.old }
{
    for one in claims {
        book.insert(one.0, one.1);
    }
}

// Holds these claims too, those of each zone by their begins: where none stood on the zone, each
// comes at its end.
pub(crate) fn hold_in_order(book: &mut Occupations, claims: Vec<(Claim, Owner)>)
    requires each { All (MayBeHeld (length book.old)) claims.items }
    requires free { All (λ one. IsFree (held book.old) one.0) claims.items }
    requires apart { AllPairs (λ one other. ¬ Clash one.0 other.0) claims.items }
    requires room { HasRoomFor book.old claims.items }
    ensures gained { Gains (held book.old) claims.items (held book.new) }
    ensures zones { length book.new ≡ length book.old }
{
    let mut sorted = claims;
    sorted.sort_unstable_by_key(|one| (one.0.zone, one.0.span.from));
    hold_all(book, &sorted);
}
