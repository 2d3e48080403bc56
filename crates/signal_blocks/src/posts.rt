//! Block signals at their detectors.

ghost use Rattle.std.specs.Prelude.{◌≡◌, ℕ, ◌+◌, ◌*◌, ◌<◌, ◌≤◌, ◌^◌, ◌∷◌, ◌++◌, []};
ghost use Rattle.std.specs.Prelude.{length, map, filter};
ghost use Rattle.std.specs.Prelude.{option_map, slice_get, slice_set, nat_le, OnOk, IfOk, IfSome};
ghost use Rattle.std.specs.Prelude.{Some, None};
ghost use Rattle.std.specs.List.{All, AllPairs, Contains};
ghost use Rattle.signal_blocks.specs.Cuts.{sight_at};
ghost use Rattle.rail_types.specs.Infras.{IsInfra, IsSignal};
ghost use Rattle.rail_types.specs.declared.limits.TheConstants.{MAX_SIGHT_M};
ghost use Rattle.track_graph.specs.Stands.{ComesBefore};
ghost use Rattle.signal_blocks.specs.Inside.{AreNearest, IsPost, nearer, nearest_at};
ghost use Rattle.signal_blocks.specs.Posts.{detector_among, first_in, gap_between, point_of};
ghost use Rattle.signal_blocks.specs.Posts.{post_at, post_of, post_of_bal, posts_of, AreSights};
ghost use Rattle.rail_types.specs.declared.infra_types.ends.Direction.TheVariants.{StartToStop};
ghost use Rattle.rail_types.specs.declared.infra_types.ends.Direction.TheVariants.{StopToStart};

use no_memory::NoMemory;
use rail_types::List;
use rail_types::infra_types::{Bal, Direction, Infra, Signal};
use std::alloc::Global;
use track_graph::{Graph, Stand};

/// A block signal at the detector to which it belongs: the detector's number with the signal's
/// direction, the metres between them, the sight distance.
#[derive(Clone, Copy)]
pub struct Post {
    pub point: u32,
    pub gap_m: u64,
    pub sight_m: u32,
}

#[tactic(auto, using(crate::proofs::Ahead::member_at))]
fn stand_at(stands: &[Stand], place: usize) -> Option<Stand>
    ensures stand { result ≡ slice_get stands.now place }
    ensures member { IfSome result (Contains stands.now) }
{
    match stands.get(place) {
        Some(stand) => Some(*stand),
        None => None,
    }
}

/// The first that stands at or after a position, on the way from the track's begin.
fn first_from(stands: &[Stand], position: u64) -> Option<Stand>
    requires { AllPairs ComesBefore stands.now }
    ensures first { result
        ≡ first_in StartToStop (filter (λ stand. nat_le position stand.position) stands.now) }
    ensures member { IfSome result (Contains stands.now) }
{
    let first = stands.partition_point(|stand| stand.position < position);
    stand_at(stands, first)
}

/// The last that stands at or before a position, on the way from the track's begin.
fn last_to(stands: &[Stand], position: u64) -> Option<Stand>
    requires { AllPairs ComesBefore stands.now }
    ensures last { result
        ≡ first_in StopToStart (filter (λ stand. nat_le stand.position position) stands.now) }
    ensures member { IfSome result (Contains stands.now) }
{
    let count = stands.partition_point(|stand| stand.position <= position);
    if count == 0 {
        return None;
    }
    stand_at(stands, count - 1)
}

/// Of the detectors along a signal's track the first at or after it, in its direction.
fn detector_among(bal: &Bal, stands: &[Stand]) -> Option<Stand>
    requires { AllPairs ComesBefore stands.now }
    ensures detector { result ≡ detector_among bal.now stands.now }
    ensures member { IfSome result (Contains stands.now) }
{
    match bal.direction {
        Direction::StartToStop => first_from(stands, bal.position),
        Direction::StopToStart => last_to(stands, bal.position),
    }
}

fn point_of(direction: Direction, number: u32) -> u32
    requires { 2 * number + 1 < 2 ^ 32 }
    ensures { result ≡ point_of direction number }
{
    match direction {
        Direction::StartToStop => 2 * number,
        Direction::StopToStart => 2 * number + 1,
    }
}

fn gap_between(one: u64, other: u64) -> u64
    ensures { result ≡ gap_between one other }
{
    one.max(other) - one.min(other)
}

fn post_at(bal: &Bal, stand: &Stand) -> Post
    requires { 2 * stand.now.number + 1 < 2 ^ 32 }
    ensures { result ≡ post_at bal.now stand.now }
{
    Post {
        point: point_of(bal.direction, stand.number),
        gap_m: gap_between(bal.position, stand.position),
        sight_m: bal.sight_m,
    }
}

/// The block signal at its detector, None where no detector is ahead.
fn post_of_bal(graph: &Graph, bal: &Bal) -> Option<Post>
    requires track { bal.now.track < length graph.now.infra.tracks }
    requires few { 2 * length graph.now.infra.detectors < 2 ^ 32 }
    ensures post { result ≡ post_of_bal graph.now bal.now }
    ensures within { IfSome result (λ post. post.point < 2 * length graph.now.infra.detectors) }
{
    let stand = detector_among(bal, graph.stands(bal.track))?;
    Some(post_at(bal, &stand))
}

/// The block signals that belong to detectors, in the file's order.
fn posts_of(alloc: Global, graph: &Graph, signals: &[Signal]) -> Result<Vec<Post>, NoMemory>
    requires signals { All (IsSignal (length graph.now.infra.tracks)) signals.now }
    requires few { 2 * length graph.now.infra.detectors < 2 ^ 32 }
    ensures posts { IfOk result (λ posts. posts.items ≡ posts_of graph.now signals.now) }
    ensures within { IfOk result (λ posts.
        All (IsPost (2 * length graph.now.infra.detectors)) posts.items) }
{
    let mut posts = Vec::new(alloc);
    'signals: for signal in signals {
        add_post(graph, signal, &mut posts)?;
    }
    Ok(posts)
}

/// Adds the signal at its detector, where there is one.
fn add_post(graph: &Graph, signal: &Signal, to: &mut Vec<Post>) -> Result<(), NoMemory>
    requires signal { IsSignal (length graph.now.infra.tracks) signal.now }
    requires few { 2 * length graph.now.infra.detectors < 2 ^ 32 }
    requires within { All (IsPost (2 * length graph.now.infra.detectors)) to.old.items }
    ensures ok { OnOk result
        (to.new.items ≡ to.old.items ++ posts_of graph.now (signal.now ∷ [])) }
    ensures within { OnOk result
        (All (IsPost (2 * length graph.now.infra.detectors)) to.new.items) }
{
    if let Some(post) = post_of(graph, signal) {
        to.push(post)?;
    }
    Ok(())
}

/// The signal at its detector, None where it is no block signal, or no detector is ahead.
fn post_of(graph: &Graph, signal: &Signal) -> Option<Post>
    requires signal { IsSignal (length graph.now.infra.tracks) signal.now }
    requires few { 2 * length graph.now.infra.detectors < 2 ^ 32 }
    ensures post { result ≡ post_of graph.now signal.now }
    ensures within { IfSome result (IsPost (2 * length graph.now.infra.detectors)) }
{
    let Some(bal) = &signal.bal else {
        return None;
    };
    post_of_bal(graph, bal)
}

/// By point the signal nearest to its detector, the first at a tie.
fn nearest_posts(alloc: Global, points: u32, posts: &[Post]) -> Result<Vec<Option<Post>>, NoMemory>
    requires { All (IsPost points) posts.now }
    ensures nearest { IfOk result (λ table. AreNearest posts.now table.items) }
    ensures limits { IfOk result (λ table. All (λ o. IfSome o (IsPost points)) table.items) }
{
    let mut table = vec![in alloc; None; points as usize]?;
    keep_all(&mut table, posts);
    Ok(table)
}

/// Keeps at each point the nearest of these signals, the first at a tie.
fn keep_all(table: &mut [Option<Post>], posts: &[Post])
    requires posts { All (IsPost (length table.old)) posts.now }
    requires none { All (λ post. post ≡ None) table.old }
    ensures nearest { AreNearest posts.now table.new }
    ensures limits { All (λ o. IfSome o (IsPost (length table.old))) table.new }
{
    'posts: for post in posts {
        keep_nearest(table, post);
    }
}

/// Keeps a signal at its point where it is nearer than the one that is kept there.
fn keep_nearest(table: &mut [Option<Post>], post: &Post)
    requires { post.now.point < length table.old }
    ensures { table.new ≡ slice_set table.old post.now.point
        (Some (nearer (nearest_at table.old post.now.point) post.now)) }
{
    let kept = table[post.point as usize];
    table[post.point as usize] = Some(nearer(kept, post));
}

/// The nearer of two signals, the first at a tie.
fn nearer(kept: Option<Post>, post: &Post) -> Post
    ensures { result ≡ nearer kept post.now }
{
    let Some(kept) = kept else {
        return *post;
    };
    if kept.gap_m <= post.gap_m {
        kept
    } else {
        *post
    }
}

fn sight_of(post: Option<Post>) -> Option<u32>
    ensures { result ≡ option_map (λ p. p.sight_m) post }
{
    match post {
        Some(post) => Some(post.sight_m),
        None => None,
    }
}

fn sights_of(alloc: Global, table: &[Option<Post>]) -> Result<List<Option<u32>>, NoMemory>
    ensures { IfOk result (λ sights. sights ≡ map (option_map (λ p. p.sight_m)) table.now) }
{
    let mut sights = List::new(alloc);
    'table: for post in table {
        sights.push(sight_of(*post))?;
    }
    Ok(sights)
}

/// By point the sight distance of the nearest block signal that belongs to it.
pub(crate) fn sights_by_point(
    alloc: Global,
    graph: &Graph,
    infra: &Infra,
) -> Result<List<Option<u32>>, NoMemory>
    requires infra { IsInfra infra.now }
    requires graph { graph.now.infra ≡ infra.now }
    ensures sights { IfOk result (AreSights graph.now infra.now.signals) }
    ensures limits { IfOk result (λ sights. (point sight : ℕ)
        → sight_at sights point ≡ Some sight → sight ≤ MAX_SIGHT_M) }
{
    let posts = posts_of(alloc, graph, infra.signals.as_slice())?;
    let table = nearest_posts(alloc, 2 * infra.detectors.len() as u32, &posts)?;
    let sights = sights_of(alloc, &table)?;
    Ok(sights)
}
