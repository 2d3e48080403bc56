//! How near a train is to its calls, kept with its chart for the next requests.

ghost use Rattle.std.specs.Prelude.{◌≡◌, ◌↔◌, ◌+◌, ◌-◌, ◌<◌, ◌≤◌, [], All, drop, length, map};
ghost use Rattle.std.specs.Prelude.{IfNone, IfOk, IfSome, IsTrue};
ghost use Rattle.label_search.specs.Nearing.{HaveShortRuns};
ghost use Rattle.path_labels.specs.KeptNears.{
  AreNearAt,
  GoOn,
  IsLonger,
  IsNearAt,
  IsNearKept,
  PutsNear,
  kept_at,
  near_kept,
};

use label_search::{Chart, ChartCall, Near, Roads, near_to, spots_before};
use no_memory::NoMemory;
use rail_types::List;
use std::alloc::Global;
use std::marker::Model;

/// Greatest number of calls of which it is kept how near a train is to them.
pub const MAX_NEARS: usize = 128;

/// How near a train is to a call at the ends of these blocks, and the spots from which a way leads
/// to this call.
#[derive(Drop)]
pub struct KeptNear {
    pub(crate) blocks: List<u32>,
    pub(crate) near: Near,
    pub(crate) lasts: List<usize>,
}

/// How near a train is to its calls, the one that was worked out last behind the others: at most
/// `MAX_NEARS`, each with 4 bytes for each spot of the chart. Contracts see the list of them.
#[derive(Drop)]
pub struct Nears {
    kept: Vec<KeptNear>,
}

impl Model for Nears {
    ghost use Rattle.std.specs.Prelude.{◌≤◌, List as list_of, length};
    ghost use Rattle.path_labels.specs.declared.kept_nears.KeptNear.{KeptNear as one_kept};
    ghost use Rattle.path_labels.specs.declared.kept_nears.TheConstants.{MAX_NEARS};

    ghost Value = { list_of one_kept };

    ghost view = { λ a. a.kept.items };

    ghost invariant = { λ a. record { few : length a.kept.items ≤ MAX_NEARS } };
}

impl Nears {
    /// None yet.
    pub fn new(alloc: Global) -> Nears
        ensures { result ≡ [] }
    {
        Nears {
            kept: Vec::new(alloc),
        }
    }

    /// Where it stands among them how near the train of a chart is to each of these calls. Where
    /// some are not kept they are worked out, and the first ones are let go for them. `NoMemory`
    /// alone is refused.
    pub(crate) fn numbers_of_calls(
        &mut self,
        alloc: Global,
        chart: &Chart,
        roads: &Roads,
        calls: &[ChartCall],
    ) -> Result<Vec<usize>, NoMemory>
        requires runs { HaveShortRuns chart.now.spots }
        requires few { length calls.now ≤ MAX_NEARS }
        requires kept { All (IsNearKept chart.now.spots) self.old }
        ensures kept { All (IsNearKept chart.now.spots) self.new }
        ensures on { GoOn self.old (length calls.now) self.new }
        ensures numbers { IfOk result (λ numbers. AreNearAt self.new calls.now numbers.items) }
    {
        if let Some(numbers) = numbers_found(alloc, self.kept.as_slice(), calls)? {
            return Ok(numbers);
        }
        make_room(&mut self.kept, calls.len());
        let numbers = numbers_of(alloc, &mut self.kept, chart, roads, calls)?;
        Ok(numbers)
    }

    /// How near the train is to the calls that stand there.
    pub(crate) fn nears_at<'a>(
        &'a self,
        alloc: Global,
        numbers: &[usize],
    ) -> Result<Vec<&'a Near>, NoMemory>
        requires { All (λ number. number < length self.now) numbers.now }
        ensures { IfOk result (λ nears.
            map (λ near. near.now) nears.items ≡ map (near_kept self.now) numbers.now) }
    {
        let nears = nears_of(alloc, self.kept.as_slice(), numbers)?;
        Ok(nears)
    }

    /// The spots from which a way leads to the call that stands there.
    pub(crate) fn lasts_at(&self, number: usize) -> &List<usize>
        requires { number < length self.now }
        ensures { result.now ≡ (kept_at self.now number).lasts }
    {
        lasts_of(self.kept.as_slice(), number)
    }
}

// Lets the first ones go until so many more may be kept.
fn make_room(kept: &mut Vec<KeptNear>, more: usize)
    requires { more ≤ MAX_NEARS }
    ensures room { length kept.new.items + more ≤ MAX_NEARS }
    ensures gone { kept.new.items
        ≡ drop (length kept.old.items + more - MAX_NEARS) kept.old.items }
{
    for _ in 0..kept.len().saturating_sub(MAX_NEARS - more) {
        kept.remove(0);
    }
}

// Where the calls stand, if all of them are kept.
fn numbers_found(
    alloc: Global,
    kept: &[KeptNear],
    calls: &[ChartCall],
) -> Result<Option<Vec<usize>>, NoMemory>
    ensures { IfOk result (λ found.
        IfSome found (λ numbers. AreNearAt kept.now calls.now numbers.items)) }
{
    let mut numbers = Vec::with_capacity(alloc, calls.len())?;
    for call in calls {
        let Some(at) = first_near(kept, call.blocks.as_slice()) else {
            return Ok(None);
        };
        numbers.push(at)?;
    }
    Ok(Some(numbers))
}

// Where the calls stand once those are put behind the others that are not kept.
fn numbers_of(
    alloc: Global,
    kept: &mut Vec<KeptNear>,
    chart: &Chart,
    roads: &Roads,
    calls: &[ChartCall],
) -> Result<Vec<usize>, NoMemory>
    requires runs { HaveShortRuns chart.now.spots }
    requires room { length kept.old.items + length calls.now ≤ MAX_NEARS }
    requires kept { All (IsNearKept chart.now.spots) kept.old.items }
    ensures few { length kept.new.items ≤ MAX_NEARS }
    ensures kept { All (IsNearKept chart.now.spots) kept.new.items }
    ensures longer { IsLonger kept.old.items kept.new.items }
    ensures numbers { IfOk result (λ numbers. AreNearAt kept.new.items calls.now numbers.items) }
{
    let mut numbers = Vec::with_capacity(alloc, calls.len())?;
    for call in calls {
        numbers.push(number_of(alloc, kept, chart, roads, &call.blocks)?)?;
    }
    Ok(numbers)
}

// Where it stands how near the train is to a call at the ends of these blocks, behind the others
// where it was not kept.
fn number_of(
    alloc: Global,
    kept: &mut Vec<KeptNear>,
    chart: &Chart,
    roads: &Roads,
    blocks: &List<u32>,
) -> Result<usize, NoMemory>
    requires runs { HaveShortRuns chart.now.spots }
    requires kept { All (IsNearKept chart.now.spots) kept.old.items }
    ensures puts { PutsNear kept.old.items kept.new.items blocks.now }
    ensures kept { All (IsNearKept chart.now.spots) kept.new.items }
    ensures number { IfOk result (IsNearAt kept.new.items blocks.now) }
{
    if let Some(at) = first_near(kept.as_slice(), blocks.as_slice()) {
        return Ok(at);
    }
    let near = near_to(alloc, chart, roads, blocks.as_slice())?;
    let lasts = spots_before(alloc, chart, blocks.as_slice())?;
    let one = KeptNear {
        blocks: blocks.copy(alloc)?,
        near,
        lasts,
    };
    let at = kept.len();
    kept.push(one)?;
    Ok(at)
}

// Where the first stands that is kept for these blocks.
fn first_near(kept: &[KeptNear], blocks: &[u32]) -> Option<usize>
    ensures some { IfSome result (IsNearAt kept.now blocks.now) }
    ensures none { IfNone result (All (λ one. ¬ (one.blocks ≡ blocks.now)) kept.now) }
{
    for at in 0..kept.len() {
        if same_blocks(kept[at].blocks.as_slice(), blocks) {
            return Some(at);
        }
    }
    None
}

fn same_blocks(a: &[u32], b: &[u32]) -> bool
    ensures { IsTrue result ↔ (a.now ≡ b.now) }
{
    a == b
}

fn nears_of<'a>(
    alloc: Global,
    kept: &'a [KeptNear],
    numbers: &[usize],
) -> Result<Vec<&'a Near>, NoMemory>
    requires { All (λ number. number < length kept.now) numbers.now }
    ensures { IfOk result (λ nears.
        map (λ near. near.now) nears.items ≡ map (near_kept kept.now) numbers.now) }
{
    let mut nears = Vec::with_capacity(alloc, numbers.len())?;
    for number in numbers {
        nears.push(&kept[*number].near)?;
    }
    Ok(nears)
}

fn lasts_of(kept: &[KeptNear], number: usize) -> &List<usize>
    requires { number < length kept.now }
    ensures { result.now ≡ (kept_at kept.now number).lasts }
{
    &kept[number].lasts
}
