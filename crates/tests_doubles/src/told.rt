//! What is printed of paths, flaws and places.

use crate::comparisons::{Compared, Got, last_leave};
use rail_types::{Claim, NetFlaw, Owner, Path, Run};
use std::alloc::Global;
use std::io;
use tail_states::PlacesFault;

/// The path of a search, or how it and its double differ.
pub fn told(alloc: Global, compared: &Compared) -> io::Result<String> {
    match compared {
        Compared::NotAsked => Ok(String::from_str(alloc, "not asked")?),
        Compared::Same(got) => path_text(alloc, &got.path),
        Compared::Differs(got, want) => {
            let Got {
                path,
                pairs,
                leave: found,
            } = got;
            let leave = last_leave(path);
            Ok(format!(in alloc;
                "leaves at {leave:?}, found {found:?}, pairs {pairs}, but {want:?}"
            )?)
        }
    }
}

// The runs of a path, each by block, enter, leave, and 1 where the train stops.
fn path_text(alloc: Global, path: &Option<Path>) -> io::Result<String> {
    let Some(path) = path else {
        return Ok(String::from_str(alloc, "no path")?);
    };
    let mut text = format!(in alloc; "runs {}", path.runs.len())?;
    for run in path.runs.as_slice() {
        push_run(&mut text, run)?;
    }
    Ok(text)
}

fn push_run(text: &mut String, run: &Run) -> io::Result<()> {
    let stops = if run.stops { 1 } else { 0 };
    write!(text, " {} {} {} {stops}", run.block, run.enter, run.leave)?;
    Ok(())
}

/// The flaw of a network.
pub fn flaw_text(flaw: Option<NetFlaw>) -> &'static str {
    match flaw {
        None => "no flaw",
        Some(NetFlaw::Range) => "range",
        Some(NetFlaw::CellOrder) => "cell order",
        Some(NetFlaw::EmptyBlock) => "empty block",
        Some(NetFlaw::Point) => "point",
        Some(NetFlaw::Serves) => "serves",
        Some(NetFlaw::Limit) => "limit",
    }
}

/// How many places there are, or at which number the listing stopped.
pub fn places_text(
    alloc: Global,
    counted: Option<Result<usize, PlacesFault>>,
) -> io::Result<String> {
    match counted {
        None => Ok(String::from_str(alloc, "not asked")?),
        Some(Ok(count)) => Ok(format!(in alloc; "places {count}")?),
        Some(Err(PlacesFault::Wide { count })) => Ok(format!(in alloc; "wide {count}")?),
        Some(Err(PlacesFault::Memory)) => Ok(String::from_str(alloc, "no memory")?),
    }
}

/// How many labels a search keeps.
pub fn labels_text(alloc: Global, count: Option<u64>) -> io::Result<String> {
    match count {
        None => Ok(String::from_str(alloc, "not asked")?),
        Some(count) => Ok(format!(in alloc; "labels {count}")?),
    }
}

/// A held claim.
pub fn claim_text(alloc: Global, held: &(Claim, Owner)) -> io::Result<String> {
    let (claim, owner) = held;
    let (kind, number) = match owner {
        Owner::Base(train) => ("base", u64::from(*train)),
        Owner::Entry(at) => ("entry", *at),
    };
    Ok(format!(in alloc;
        "zone {} from {} to {} of {kind} {number}",
        claim.zone, claim.span.from, claim.span.to
    )?)
}
