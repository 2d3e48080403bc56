//! The members of a proof by the numbers of their places, sorted so that
//! a look-up is a binary search.

ghost use Rattle.std.specs.Prelude.{◌≡◌, ◌↔◌, ◌<◌, ◌≤◌, ◌^◌, ◌≤ℤ◌, length, All, AllPairs, Contains};
ghost use Rattle.std.specs.Prelude.{IfOk, IfSome, IsNone, IsTrue};
ghost use Rattle.std.specs.Int.{int_min};
ghost use Rattle.std.specs.List.{AllWithin};
ghost use Rattle.std.specs.List.Sorted.{IsPermutation};
ghost use Rattle.rail_types.specs.declared.limits.TheConstants.{MAX_PLACES};
ghost use Rattle.refusal_proof.specs.Inside.{
  AreGrown,
  AreLabelsOf,
  BeginsBy,
  ComesBefore,
  CoverAlike,
  IsCovered,
  IsCoveredTo,
  IsReaching,
  ReachesLess,
  members_of,
};

use no_memory::NoMemory;
use rail_types::Window;
use std::alloc::Global;
use tail_states::{Member, Places};

/// A place by its number, and a window of ticks.
#[derive(Clone, Copy, Debug)]
pub(crate) struct Label {
    pub(crate) number: u32,
    pub(crate) window: Window,
}

fn label_at(number: usize, window: &Window) -> Label
    requires { number < 2 ^ 32 }
    ensures number { result.number ≡ number }
    ensures window { result.window ≡ window.now }
{
    Label {
        number: number as u32,
        window: *window,
    }
}

// The members by the numbers of their places, None where one's place is none of these.
fn numbered(
    alloc: Global,
    places: &Places,
    members: &[Member],
) -> Result<Option<Vec<Label>>, NoMemory>
    requires few { length places.now.members ≤ MAX_PLACES }
    ensures found { IfOk result (λ found. IfSome found (λ labels.
        members_of places.now.members labels.items ≡ members.now)) }
    ensures numbers { IfOk result (λ found. IfSome found (λ labels.
        All (λ label. label.number < length places.now.members) labels.items)) }
    ensures places { IfOk result (λ found. IfSome found (λ _.
        All (λ member. Contains places.now.members member.place) members.now)) }
    ensures none { IfOk result (λ found. IsNone found
        → ¬ All (λ member. Contains places.now.members member.place) members.now) }
{
    let mut labels = Vec::new(alloc);
    for member in members {
        let Some(number) = places.number(&member.place) else {
            return Ok(None);
        };
        labels.push(label_at(number, &member.window))?;
    }
    Ok(Some(labels))
}

fn sort_by_number(labels: &mut Vec<Label>)
    ensures same { IsPermutation labels.old.items labels.new.items }
    ensures sorted { AllPairs ComesBefore labels.new.items }
{
    labels.sort_unstable_by_key(|one| (one.number, one.window.from));
}

// A label, which ends no earlier than the last of those before it where that is at the same number.
fn reaching(before: &[Label], label: &Label) -> Label
    ensures { IsReaching before.now label.now result }
{
    if before.len() == 0 {
        return *label;
    }
    let last = &before[before.len() - 1];
    if last.number != label.number || last.window.to <= label.window.to {
        return *label;
    }
    Label {
        number: label.number,
        window: Window {
            from: label.window.from,
            to: last.window.to,
        },
    }
}

// Sorted labels, each of which ends no earlier than any before it at the same
// number; one look-up is enough then.
fn reaching_all(alloc: Global, sorted: &[Label]) -> Result<Vec<Label>, NoMemory>
    requires { AllPairs ComesBefore sorted.now }
    ensures order { IfOk result (λ labels. AllPairs ReachesLess labels.items) }
    ensures alike { IfOk result (λ labels. CoverAlike sorted.now labels.items) }
    ensures grown { IfOk result (λ labels. AreGrown sorted.now labels.items) }
{
    let mut labels = Vec::new(alloc);
    for label in sorted {
        let next = reaching(labels.as_slice(), label);
        labels.push(next)?;
    }
    Ok(labels)
}

/// The members by the numbers of their places, in order, None where one's place is none of these.
pub(crate) fn labels_of(
    alloc: Global,
    places: &Places,
    members: &[Member],
) -> Result<Option<Vec<Label>>, NoMemory>
    requires few { length places.now.members ≤ MAX_PLACES }
    requires windows { All (λ member. member.window.from ≤ℤ member.window.to) members.now }
    ensures found { IfOk result (λ found. IfSome found (λ labels.
        AreLabelsOf places.now.members members.now labels.items)) }
    ensures places { IfOk result (λ found. IfSome found (λ _.
        All (λ member. Contains places.now.members member.place) members.now)) }
    ensures none { IfOk result (λ found. IsNone found
        → ¬ All (λ member. Contains places.now.members member.place) members.now) }
{
    let Some(mut labels) = numbered(alloc, places, members)? else {
        return Ok(None);
    };
    sort_by_number(&mut labels);
    let labels = reaching_all(alloc, labels.as_slice())?;
    Ok(Some(labels))
}

// How many labels are at lower numbers, or at this one and begin by the first tick of a window.
fn count_begun(labels: &[Label], number: u32, at: &Window) -> usize
    requires { AllPairs ReachesLess labels.now }
    ensures bound { result ≤ length labels.now }
    ensures before { AllWithin (BeginsBy number at.now.from) labels.now 0 result }
    ensures after { AllWithin (λ one. ¬ BeginsBy number at.now.from one) labels.now
        result (length labels.now) }
{
    labels.partition_point(|one| {
        one.number < number || (one.number == number && one.window.from <= at.from)
    })
}

// Whether a label is at this number and does not end before a window begins.
fn reaches(label: &Label, number: u32, at: &Window) -> bool
    ensures { IsTrue result
        ↔ ((label.now.number ≡ number) × (at.now.from ≤ℤ label.now.window.to)) }
{
    label.number == number && at.from <= label.window.to
}

// A window, up to the end of another where that is earlier.
fn up_to(at: &Window, other: &Window) -> Window
    ensures from { result.from ≡ at.now.from }
    ensures to { result.to ≡ int_min other.now.to at.now.to }
{
    Window {
        from: at.from,
        to: other.to.min(at.to),
    }
}

/// The first ticks of a window, as many as one look-up finds covered at this number;
/// None where the first is not.
pub(crate) fn covered(labels: &[Label], number: u32, at: &Window) -> Option<Window>
    requires order { AllPairs ReachesLess labels.now }
    requires some { at.now.from ≤ℤ at.now.to }
    ensures found { IfSome result (IsCoveredTo labels.now number at.now) }
    ensures none { IsNone result → ¬ IsCovered labels.now number at.now.from }
{
    let count = count_begun(labels, number, at);
    if count == 0 {
        return None;
    }
    let last = &labels[count - 1];
    if reaches(last, number, at) {
        Some(up_to(at, &last.window))
    } else {
        None
    }
}
