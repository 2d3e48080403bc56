//! Laws of worlds over every list of events, each on a function that does nothing.

ghost use Rattle.std.specs.Prelude.{◌≡◌, ◌⊎◌, ◌≤◌, ℕ, false, true, List, take, All};
ghost use Rattle.rail_types.specs.Timetables.{IsTimetable, Timetable};
ghost use Rattle.grant_log.specs.Legal.{NoneClash};
ghost use Rattle.grant_log.specs.Live.{live_claims};
ghost use Rattle.plan_core.specs.declared.events.Event.{Event as event_type};
ghost use Rattle.plan_core.specs.declared.events.Event.TheVariants.{Settle};
ghost use Rattle.plan_core.specs.Events.{after, IsEnabled};
ghost use Rattle.plan_core.specs.Pairs.{IsEventOfPair, IsTurnOf, pair_of, TakesTurn};
ghost use Rattle.plan_core.specs.Runs.{BacksOnlyByLoss, HasLostLast, IsCrash, MarksOnlyTheLost};
ghost use Rattle.plan_core.specs.Runs.{Runs, Takes};
ghost use Rattle.plan_core.specs.Sound.{GoBackByLoss, IsSound};
ghost use Rattle.plan_core.specs.Worlds.{first_world, Plan};

use grant_log::legal_histories_never_clash;

/// A world stays sound over every list of events from its beginning: among others its history is
/// legal at each moment, and no two live claims of different owners ever clash.
pub fn worlds_stay_sound()
    ensures sound { (timetable : Timetable) (clients : ℕ) (events : List event_type)
        (world : Plan) → IsTimetable timetable → Runs (first_world timetable clients) events world →
        IsSound world }
    ensures timetable { (old new : Plan) (events : List event_type) →
        Runs old events new → new.timetable ≡ old.timetable }
    ensures clash { (world : Plan) (front : ℕ) → IsSound world →
        NoneClash (live_claims world.timetable (take front world.entries)) }
{
    legal_histories_never_clash();
}

/// What is settled stays for good: over every list of events the settled entries stay where they
/// are, and no fewer are settled behind it. A crash leaves the history as it is, or without its
/// last entry, which was not settled.
pub fn settled_entries_stay()
    ensures stay { (old new : Plan) (events : List event_type) → IsSound old →
        Runs old events new → take old.settled new.entries ≡ take old.settled old.entries }
    ensures count { (old new : Plan) (events : List event_type) → IsSound old →
        Runs old events new → old.settled ≤ new.settled }
    ensures crash { (old new : Plan) (event : event_type) → IsSound old → IsCrash event →
        Takes old event new → (new.entries ≡ old.entries) ⊎ HasLostLast old new }
{}

/// The points of a client's notes never go back, but by one behind a note whose entry was
/// lost; and no note is marked as lost but by a crash that loses the last entry, which was
/// not settled: that of this entry. Nor does the front that a client knows go back at any
/// other event, and there by one.
pub fn points_go_back_by_loss_alone()
    ensures points { (timetable : Timetable) (clients : ℕ) (events : List event_type)
        (world : Plan) → IsTimetable timetable → Runs (first_world timetable clients) events world →
        All (λ party. GoBackByLoss party.log) world.clients }
    ensures marks { (old new : Plan) (event : event_type) → Takes old event new →
        MarksOnlyTheLost old event new }
    ensures fronts { (old new : Plan) (event : event_type) → IsSound old → Takes old event new →
        BacksOnlyByLoss old event new }
{}

/// Each event that may come takes the pair of history and settled count as it says, whoever the
/// client is. An event of a client is a turn of it; so is that event behind a settling; and so is a
/// settling that is not done, alone.
pub fn events_take_pairs()
    ensures event { (world : Plan) (event : event_type) → IsEnabled world event →
        IsEventOfPair world.timetable event (pair_of world) (pair_of (after world event)) }
    ensures turn { (world : Plan) (event : event_type) (client : ℕ) → IsTurnOf client event →
        IsEnabled world event →
        TakesTurn world.timetable client (pair_of world) (pair_of (after world event)) }
    ensures settled { (world : Plan) (event : event_type) (client : ℕ) → IsTurnOf client event →
        IsEnabled world (Settle true) → IsEnabled (after world (Settle true)) event →
        TakesTurn world.timetable client (pair_of world)
        (pair_of (after (after world (Settle true)) event)) }
    ensures failed { (world : Plan) (client : ℕ) → IsEnabled world (Settle false) →
        TakesTurn world.timetable client (pair_of world) (pair_of world) }
{}
