//! The search beside its plain double.

ghost use Rattle.std.specs.Prelude.{◌≡◌, ◌≤◌, None, length};
ghost use Rattle.rail_types.specs.declared.limits.TheConstants.{MAX_PLACES};
ghost use Rattle.rail_types.specs.Flaws.{first_flaw};
ghost use Rattle.rail_types.specs.Limits.{IsRequestWithinLimits, IsSettingsWithinLimits};
ghost use Rattle.tail_states.specs.Listed.{AreTheMoves, AreThePlaces};

use crate::doubles::{Expected, expect};
use crate::made::{book_of, listed};
use no_memory::NoMemory;
use occupation_book::Occupations;
use path_labels::{Sought, find, label_count, seek};
use rail_types::{Claim, Network, Path, Request, Settings};
use std::alloc::Global;
use tail_states::{Closed, Places, PlacesFault};

/// What the search answers: its path, the pairs of place and tick that its members hold, and the
/// last leave of the path that is found without members.
#[derive(Drop)]
pub struct Got {
    pub path: Option<Path>,
    pub pairs: u64,
    pub leave: Option<u32>,
}

/// What comes of a comparison.
#[derive(Drop)]
pub enum Compared {
    /// The network has a flaw, or the request too many places.
    NotAsked,
    Same(Got),
    Differs(Got, Expected),
}

/// The last leave of a path.
pub fn last_leave(path: &Option<Path>) -> Option<u32> {
    let Some(path) = path else {
        return None;
    };
    match path.runs.as_slice().last() {
        Some(run) => u32::try_from(run.leave).ok(),
        None => None,
    }
}

// The pairs of place and tick that members hold, which have none in common.
fn pairs(proof: &Closed) -> u64 {
    let mut pairs = 0u64;
    for member in proof.members.as_slice() {
        let ticks = member
            .window
            .to
            .saturating_sub(member.window.from)
            .saturating_add(1);
        pairs = pairs.saturating_add(u64::try_from(ticks).unwrap_or(0));
    }
    pairs
}

fn searched(
    alloc: Global,
    net: &Network,
    settings: &Settings,
    book: &Occupations,
    request: &Request,
    listed: &Places,
) -> Result<Got, NoMemory>
    requires flawless { first_flaw net.now ≡ None }
    requires settings { IsSettingsWithinLimits settings.now }
    requires zones { length book.now ≡ net.now.zones }
    requires request { IsRequestWithinLimits request.now }
    requires places { AreThePlaces net.now request.now listed.now.members }
    requires moves { AreTheMoves net.now request.now listed.now }
    requires few { length listed.now.members ≤ MAX_PLACES }
{
    let (path, proof) = match seek(alloc, net, settings, book, request, listed)? {
        Sought::Found(path, proof) => (Some(path), proof),
        Sought::NoPath(proof) => (None, proof),
    };
    let found = find(alloc, net, settings, book, request, listed)?;
    Ok(Got {
        path,
        pairs: pairs(&proof),
        leave: last_leave(&found),
    })
}

fn agrees(got: &Got, want: &Expected) -> bool {
    last_leave(&got.path) == want.leave && got.leave == want.leave && got.pairs == want.pairs
}

// The claims that a book holds.
fn taken(alloc: Global, book: &Occupations) -> Result<Vec<Claim>, NoMemory> {
    let mut taken = Vec::new(alloc);
    for (claim, _) in book.claims(alloc)?.as_slice() {
        taken.push(*claim)?;
    }
    Ok(taken)
}

/// Asks the search and its double.
pub fn compare(
    alloc: Global,
    net: &Network,
    settings: &Settings,
    claims: &[Claim],
    request: &Request,
) -> Result<Compared, NoMemory>
    requires settings { IsSettingsWithinLimits settings.now }
    requires request { IsRequestWithinLimits request.now }
{
    if net.check().is_some() {
        return Ok(Compared::NotAsked);
    }
    let book = book_of(alloc, net, claims)?;
    match expected(alloc, net, settings, &book, request)? {
        Some(want) => compare_with(alloc, net, settings, &book, request, want),
        None => Ok(Compared::NotAsked),
    }
}

// What the search should answer beside the claims of a book.
fn expected(
    alloc: Global,
    net: &Network,
    settings: &Settings,
    book: &Occupations,
    request: &Request,
) -> Result<Option<Expected>, NoMemory> {
    let taken = taken(alloc, book)?;
    expect(alloc, net, settings, request, taken.as_slice(), 300)
}

// Asks the search, and compares its answer with what it should be.
fn compare_with(
    alloc: Global,
    net: &Network,
    settings: &Settings,
    book: &Occupations,
    request: &Request,
    want: Expected,
) -> Result<Compared, NoMemory>
    requires flawless { first_flaw net.now ≡ None }
    requires settings { IsSettingsWithinLimits settings.now }
    requires zones { length book.now ≡ net.now.zones }
    requires request { IsRequestWithinLimits request.now }
{
    let Ok(listed) = listed(alloc, net, request) else {
        return Ok(Compared::NotAsked);
    };
    let got = searched(alloc, net, settings, book, request, &listed)?;
    if agrees(&got, &want) && listed.count() == want.places {
        Ok(Compared::Same(got))
    } else {
        Ok(Compared::Differs(got, want))
    }
}

/// How many labels the search keeps in an empty book, and None where the network has a flaw or
/// the request too many places.
pub fn labels(
    alloc: Global,
    net: &Network,
    settings: &Settings,
    request: &Request,
) -> Result<Option<u64>, NoMemory>
    requires settings { IsSettingsWithinLimits settings.now }
    requires request { IsRequestWithinLimits request.now }
{
    if net.check().is_some() {
        return Ok(None);
    }
    let book = book_of(alloc, net, &[])?;
    labels_beside(alloc, net, settings, &book, request)
}

// How many labels the search keeps beside the claims of a book.
fn labels_beside(
    alloc: Global,
    net: &Network,
    settings: &Settings,
    book: &Occupations,
    request: &Request,
) -> Result<Option<u64>, NoMemory>
    requires flawless { first_flaw net.now ≡ None }
    requires settings { IsSettingsWithinLimits settings.now }
    requires zones { length book.now ≡ net.now.zones }
    requires request { IsRequestWithinLimits request.now }
{
    match listed(alloc, net, request) {
        Ok(listed) => Ok(Some(label_count(alloc, net, settings, book, request, &listed)?)),
        Err(_) => Ok(None),
    }
}

/// How many places a request has, or why they are not listed; None where the network has a flaw.
pub fn counted(
    alloc: Global,
    net: &Network,
    request: &Request,
) -> Option<Result<usize, PlacesFault>>
    requires request { IsRequestWithinLimits request.now }
{
    if net.check().is_some() {
        return None;
    }
    match listed(alloc, net, request) {
        Ok(listed) => Some(Ok(listed.count())),
        Err(fault) => Some(Err(fault)),
    }
}
