//! Laws of histories, each on a function that does nothing.

ghost use Rattle.std.specs.Prelude.{◌≡◌, ◌↔◌, ◌∷◌, ◌++◌, [], ℕ, ◌<◌, true, List, All, Contains};
ghost use Rattle.std.specs.Prelude.{Some, None, length, take, slice_get};
ghost use Rattle.rail_types.specs.declared.paths.Claim.{Claim as claim_type};
ghost use Rattle.rail_types.specs.declared.entries.Deed.{Deed as deed_type};
ghost use Rattle.rail_types.specs.declared.entries.Deed.TheVariants.{Free};
ghost use Rattle.rail_types.specs.declared.entries.Entry.{Entry as entry_type};
ghost use Rattle.rail_types.specs.declared.entries.Owner.{Owner as owner_type};
ghost use Rattle.rail_types.specs.declared.entries.Owner.TheVariants.{Base as of_train};
ghost use Rattle.rail_types.specs.declared.entries.Owner.TheVariants.{Entry as of_entry};
ghost use Rattle.rail_types.specs.Limits.{IsNearSpan};
ghost use Rattle.rail_types.specs.Occupation.{AreJoined, HeldClaim};
ghost use Rattle.rail_types.specs.Timetables.{IsTimetable, Timetable, base_claims};
ghost use Rattle.occupation_book.specs.Held.{IsFree};
ghost use Rattle.grant_log.specs.declared.verdicts.Verdict.{Verdict as verdict_type};
ghost use Rattle.grant_log.specs.declared.verdicts.Verdict.TheVariants.{Fresh, Taken};
ghost use Rattle.grant_log.specs.Content.{HaveSameContent, has_same_content};
ghost use Rattle.grant_log.specs.Following.{AreLive, Follow, GoBack};
ghost use Rattle.grant_log.specs.Inside.{HasStairway};
ghost use Rattle.grant_log.specs.Live.{claims_of, freed_by, live_claims};
ghost use Rattle.grant_log.specs.Legal.{IsInRange, IsLegal, Joins, NoneClash};
ghost use Rattle.grant_log.specs.Meanings.{FitsLive, IsNew, IsNotTaken, Says};
ghost use Rattle.grant_log.specs.Verdict.{breaks, takes, verdict_on};

use blocking_time::{joined_claims_are_one, stairways_are_near, the_first_broken_rule_is_told};
use rail_types::{first_clashes_are_first, networks_without_flaws};

/// Each beginning of a legal history is legal, and in each no two live claims of different owners
/// clash, those of the base timetable and of holds among them.
pub fn legal_histories_never_clash()
    ensures beginning { (timetable : Timetable) (entries : List entry_type) (front : ℕ) →
        IsLegal timetable entries → IsLegal timetable (take front entries) }
    ensures none { (timetable : Timetable) (entries : List entry_type) (front : ℕ) →
        IsTimetable timetable → IsLegal timetable entries →
        NoneClash (live_claims timetable (take front entries)) }
{
    first_clashes_are_first();
}

/// Each grant of a legal history keeps its request, and a path of a client's own
/// making keeps the rules of runs.
pub fn grants_keep_their_requests()
    ensures requests { (timetable : Timetable) (entries : List entry_type) (at : ℕ)
        (entry : entry_type) →
        IsLegal timetable entries → slice_get entries at ≡ Some entry →
        breaks timetable entry.deed ≡ None }
{
    first_clashes_are_first();
}

/// The claims of a deed in range, whose path breaks no rule, can be worked out. They are on zones
/// of the network, and stand by zone, then by begin, with a tick between any two of a zone; and
/// their ticks are near enough to be held.
pub fn claims_are_on_the_network()
    ensures stairway { (timetable : Timetable) (entry : entry_type) →
        IsTimetable timetable → IsInRange timetable entry → breaks timetable entry.deed ≡ None →
        HasStairway timetable entry.deed }
    ensures zones { (timetable : Timetable) (entry : entry_type) →
        IsTimetable timetable → IsInRange timetable entry →
        All (λ claim. claim.zone < timetable.net.zones) (claims_of timetable entry.deed) }
    ensures joined { (timetable : Timetable) (entry : entry_type) →
        IsInRange timetable entry → AreJoined (claims_of timetable entry.deed) }
    ensures near { (timetable : Timetable) (entry : entry_type) →
        IsTimetable timetable → IsInRange timetable entry → breaks timetable entry.deed ≡ None →
        All (λ claim. IsNearSpan claim.span) (claims_of timetable entry.deed) }
{
    networks_without_flaws();
    the_first_broken_rule_is_told();
    joined_claims_are_one();
    stairways_are_near();
}

/// A claim is live with an entry as its owner exactly where it is one of the claims of the
/// entry that stands at that position, and no later entry frees it. Those of a planned
/// train are live at all times.
pub fn live_claims_are_unfreed()
    ensures unfreed { (timetable : Timetable) (entries : List entry_type) (claim : claim_type)
        (at : ℕ) →
        Contains (live_claims timetable entries) (claim, of_entry at) ↔
        ((entry : entry_type) × (slice_get entries at ≡ Some entry)
        × Contains (claims_of timetable entry.deed) claim × (freed_by entries at ≡ None)) }
    ensures planned { (timetable : Timetable) (entries : List entry_type) (claim : claim_type)
        (train : ℕ) →
        Contains (live_claims timetable entries) (claim, of_train train) ↔
        Contains (base_claims timetable) (claim, of_train train) }
{}

/// The verdict says what it means; and where what a verdict says holds, it is the verdict. Where a
/// claim is taken, a first one is told.
pub fn verdicts_say_what_they_mean()
    ensures says { (timetable : Timetable) (entries : List entry_type) (entry : entry_type) →
        Says timetable entries entry (verdict_on timetable entries entry) }
    ensures only { (timetable : Timetable) (entries : List entry_type) (entry : entry_type)
        (verdict : verdict_type) →
        IsNotTaken verdict → Says timetable entries entry verdict →
        verdict_on timetable entries entry ≡ verdict }
    ensures taken { (timetable : Timetable) (entries : List entry_type) (entry : entry_type) →
        IsNew entries entry → takes entry.deed ≡ true → breaks timetable entry.deed ≡ None →
        ¬ FitsLive timetable entries entry.deed →
        (claim : claim_type) × (owner : owner_type)
        × (verdict_on timetable entries entry ≡ Taken claim owner) }
{
    first_clashes_are_first();
}

/// The test of two contents says whether they are the same.
pub fn contents_are_compared()
    ensures { (one other : deed_type) →
        (has_same_content one other ≡ true) ↔ HaveSameContent one other }
{}

/// Claims that are live in a history can follow it: those of the base timetable at first; with what
/// an entry brings or frees they are live in the history with it behind; and without what it
/// brought, or with what it freed, they are live in the history without it.
pub fn live_claims_follow()
    ensures begin { (timetable : Timetable) → AreLive timetable (base_claims timetable) [] }
    ensures follow { (timetable : Timetable) (entries : List entry_type) (entry : entry_type)
        (old new : List HeldClaim) →
        AreLive timetable old entries → Follow timetable entries entry.deed old new →
        AreLive timetable new (entries ++ entry ∷ []) }
    ensures back { (timetable : Timetable) (entries : List entry_type) (entry : entry_type)
        (old new : List HeldClaim) →
        Joins timetable entries entry → AreLive timetable old (entries ++ entry ∷ []) →
        GoBack timetable entries entry.deed old new → AreLive timetable new entries }
{
    first_clashes_are_first();
}

/// The claims of a fresh entry are free among the live ones. Those of the entry that the last Free
/// names are free as long as it stands, so that they can come back where it is taken out.
pub fn fresh_claims_are_free()
    ensures fresh { (timetable : Timetable) (entries : List entry_type) (entry : entry_type)
        (held : List HeldClaim) →
        AreLive timetable held entries → verdict_on timetable entries entry ≡ Fresh →
        All (IsFree held) (claims_of timetable entry.deed) }
    ensures again { (timetable : Timetable) (entries : List entry_type) (entry : entry_type)
        (held : List HeldClaim) (at : ℕ) (freed : entry_type) →
        IsTimetable timetable → IsLegal timetable entries → Joins timetable entries entry →
        AreLive timetable held (entries ++ entry ∷ []) →
        entry.deed ≡ Free at → slice_get entries at ≡ Some freed →
        All (IsFree held) (claims_of timetable freed.deed) }
{
    first_clashes_are_first();
}
