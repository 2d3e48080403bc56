//! The path of a request with what shows it.

ghost use Rattle.std.specs.Prelude.{◌≡◌, ◌≤◌, pos, ◌-ℤ◌, ◌≤ℤ◌, length, IfOk};
ghost use Rattle.rail_types.specs.Limits.{IsRequestWithinLimits};
ghost use Rattle.refusal_proof.specs.Proofs.{claims_held};
ghost use Rattle.path_labels.specs.Answers.{before, last_leave};
ghost use Rattle.path_labels.specs.Guides.{IsGuide};
ghost use Rattle.ask_turns.specs.Certified.{IsCertified};

use crate::certificates::laws::certificates_pass;
use no_memory::NoMemory;
use path_commit::claims::Occupations;
use path_labels::pieces::a_path_is_a_list_of_moves;
use path_labels::tails::Closed;
use path_labels::{Guide, Sought, guides_have_the_places, seek_by};
use rail_types::{Network, Path, Request, Run, Settings, Window};
use std::alloc::Global;

/// What was found: a path that leaves last as early as any, or None; and the request that is
/// excluded beside it, with members that show it.
#[derive(Debug, Drop)]
pub struct Certified {
    pub path: Option<Path>,
    pub excluded: Request,
    pub closed: Closed,
}

// The window that ends one tick before a run does, or where it ended already.
fn ended_before(window: &Window, run: &Run) -> Window
    requires { pos 0 ≤ℤ run.now.leave }
    ensures from { result.from ≡ window.now.from }
    ensures to { result.to ≡ run.now.leave -ℤ pos 1 }
{
    Window {
        from: window.from,
        to: run.leave - 1,
    }
}

// The request whose window of arrival ends one tick before the last leave of a path.
fn earlier(alloc: Global, request: &Request, path: &Path) -> Result<Request, NoMemory>
    requires some { 1 ≤ length path.now.runs }
    requires late { pos 0 ≤ℤ last_leave path.now }
    ensures { IfOk result (λ cut. cut ≡ before request.now (last_leave path.now)) }
{
    let runs = path.runs.as_slice();
    let arrive = ended_before(&request.arrive, &runs[runs.len() - 1]);
    Ok(Request {
        train: request.train.copy(alloc)?,
        origin: request.origin,
        destination: request.destination,
        depart: request.depart,
        arrive,
        stops: request.stops.copy(alloc)?,
    })
}

/// The path of a request that leaves last as early as any that can be granted beside what
/// the book holds, or None where none can; with members that pass the check for the
/// request that is excluded beside it. `NoMemory` alone is refused.
pub fn seek_certified(
    alloc: Global,
    net: &Network,
    settings: &Settings,
    book: &Occupations,
    request: &Request,
    guide: &Guide,
) -> Result<Certified, NoMemory>
    requires zones { length book.now ≡ net.now.zones }
    requires request { IsRequestWithinLimits request.now }
    requires guide { IsGuide net.now settings.now request.now guide.now }
    ensures { IfOk result
        (IsCertified net.now settings.now (claims_held book.now) request.now) }
{
    certificates_pass();
    a_path_is_a_list_of_moves();
    guides_have_the_places();
    let sought = seek_by(alloc, net, settings, book, request, guide)?;
    match sought {
        Sought::Found(path, closed) => {
            let excluded = earlier(alloc, request, &path)?;
            Ok(Certified {
                path: Some(path),
                excluded,
                closed,
            })
        }
        Sought::NoPath(closed) => {
            let excluded = request.copy(alloc)?;
            Ok(Certified {
                path: None,
                excluded,
                closed,
            })
        }
    }
}
