//! What rules are asked, by requests, paths and deeds.

ghost use Rattle.std.specs.Prelude.{◌≡◌};
ghost use Rattle.admission_rules.specs.Wishes.{asked_wish, given_wish, wish_between, wish_of};

use crate::Wish;
use rail_types::{Deed, Path, Request, Run, Train, Wanted, Window};

/// What is wished by a request: the train's length, and the windows that it names.
pub fn asked_wish(request: &Request) -> Wish
    ensures { result ≡ asked_wish request.now }
{
    Wish {
        length_m: request.train.length_m,
        depart: request.depart,
        arrive: request.arrive,
    }
}

/// What is wished by a path that is given: the train's length, and the single ticks of its
/// departure and its arrival. None where it has no runs.
pub fn given_wish(path: &Path) -> Option<Wish>
    ensures { result ≡ given_wish path.now }
{
    let Some(first) = path.runs.get(0) else {
        return None;
    };
    let Some(last) = path.runs.get(path.runs.len() - 1) else {
        return None;
    };
    Some(wish_between(&path.train, first, last))
}

// The wish of a path by its train, its first run and its last one.
fn wish_between(train: &Train, first: &Run, last: &Run) -> Wish
    ensures { result ≡ wish_between train.now first.now last.now }
{
    Wish {
        length_m: train.length_m,
        depart: Window {
            from: first.enter,
            to: first.enter,
        },
        arrive: Window {
            from: last.leave,
            to: last.leave,
        },
    }
}

/// What was wished by a deed: by a grant, what its request asks for or its
/// path gives; by others nothing.
pub fn wish_of(deed: &Deed) -> Option<Wish>
    ensures { result ≡ wish_of deed.now }
{
    match deed {
        Deed::Grant(Wanted::Asked(request), _path) => Some(asked_wish(request.get())),
        Deed::Grant(Wanted::Pinned, path) => given_wish(path),
        Deed::Hold(_claims, _reason) => None,
        Deed::Free(_at) => None,
    }
}
