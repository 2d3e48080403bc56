//! How the claims that are held change with an entry.

ghost use Rattle.std.specs.Prelude.{◌≡◌, ◌<◌, ◌++◌, All, IfOk, OnErr, OnOk, length, map};
ghost use Rattle.rail_types.specs.Timetables.{IsTimetable};
ghost use Rattle.occupation_book.specs.Held.{claims_by_zone, held};
ghost use Rattle.grant_log.specs.Following.{AreLive, Follow};
ghost use Rattle.grant_log.specs.Legal.{IsLegal, Joins};
ghost use Rattle.grant_log.specs.Live.{claims_of, owned_by};
ghost use Rattle.grant_log.specs.Changes.{HasRoomToChange, IsChangeOf};

use crate::copy_since::holding::hold_all;
use crate::copy_since::rooms::reserve_for;
use crate::copy_since::since::{claims_at, push_owned};
use crate::{
    History, claims_are_on_the_network, fresh_claims_are_free, live_claims_are_unfreed,
    verdicts_say_what_they_mean,
};
use no_memory::NoMemory;
use occupation_book::Occupations;
use rail_types::{Claim, Deed, Entry, List, Owner};
use std::alloc::Global;

/// What an entry changes of the claims that are held.
#[derive(Debug, Drop)]
pub enum Change {
    /// This one claim comes.
    One(Claim, Owner),
    /// These claims come.
    Gained(List<(Claim, Owner)>),
    /// The entry at this position had these claims, and they go.
    Lost(u64, List<Claim>),
}

/// The change that an entry with these claims makes behind a history.
pub fn change_of(
    alloc: Global,
    history: &History,
    entry: &Entry,
    claims: &[Claim],
) -> Result<Change, NoMemory>
    requires { claims.now ≡ claims_of history.now.timetable entry.now.deed }
    ensures { IfOk result
        (IsChangeOf history.now.timetable history.now.entries entry.now.deed) }
{
    match &entry.deed {
        Deed::Free(at) => {
            let lost = claims_at(alloc, history, *at)?;
            Ok(Change::Lost(*at, List::from_vec(lost)))
        }
        // One claim, as most holds have, needs no list.
        _ => match claims {
            [claim] => Ok(Change::One(*claim, Owner::Entry(history.front()))),
            _ => {
                let mut gained = Vec::new(alloc);
                push_owned(&mut gained, claims, history.front())?;
                Ok(Change::Gained(List::from_vec(gained)))
            }
        },
    }
}

/// Makes room for what a change brings. The claims that are held stay.
pub fn reserve_change(
    alloc: Global,
    book: &mut Occupations,
    history: &History,
    entry: &Entry,
    change: &Change,
) -> Result<(), NoMemory>
    requires zones { length book.old ≡ history.now.timetable.net.zones }
    requires joins { Joins history.now.timetable history.now.entries entry.now }
    requires change { IsChangeOf history.now.timetable history.now.entries entry.now.deed
        change.now }
    ensures room { OnOk result (HasRoomToChange book.new change.now) }
    ensures held { held book.new ≡ held book.old }
    ensures zones { length book.new ≡ length book.old }
{
    claims_are_on_the_network();
    history.net();
    match change {
        Change::One(claim, owner) => reserve_for(alloc, book, &[(*claim, *owner)]),
        Change::Gained(claims) => reserve_for(alloc, book, claims.as_slice()),
        Change::Lost(_, _) => Ok(()),
    }
}

/// Lets the claims that are held follow an entry. It takes no memory.
pub fn follow(book: &mut Occupations, history: &History, entry: &Entry, change: &Change)
    requires zones { length book.old ≡ history.now.timetable.net.zones }
    requires live { AreLive history.now.timetable (held book.old) history.now.entries }
    requires joins { Joins history.now.timetable history.now.entries entry.now }
    requires change { IsChangeOf history.now.timetable history.now.entries entry.now.deed
        change.now }
    requires room { HasRoomToChange book.old change.now }
    ensures follow { Follow history.now.timetable history.now.entries entry.now.deed
        (held book.old) (held book.new) }
    ensures zones { length book.new ≡ length book.old }
{
    verdicts_say_what_they_mean();
    claims_are_on_the_network();
    fresh_claims_are_free();
    live_claims_are_unfreed();
    history.net();
    history.front();
    match change {
        Change::One(claim, owner) => hold_all(book, &[(*claim, *owner)]),
        Change::Gained(claims) => hold_all(book, claims.as_slice()),
        Change::Lost(at, claims) => {
            book.take_out(claims.as_slice(), Owner::Entry(*at));
        }
    }
}
