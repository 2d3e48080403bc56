//! A plan as a search looks at it: one whose places are listed, or that of calls over a chart, of
//! which each place and each move is worked out when it is looked at. Contracts see the whole plan.

ghost use Rattle.std.specs.Prelude.{◌≡◌, ◌+◌, ◌<◌, ◌≤◌, ◌^◌, ◌∷◌, [], pos, length, map};
ghost use Rattle.std.specs.Prelude.{All, IfNone, IfSome};
ghost use Rattle.label_search.specs.Charts.{
  HasNumbers,
  LeadOnChart,
  LeadWithin,
  call_at,
  count_over,
  is_called as called_there,
  is_open as open_there,
  made_over,
  move_among,
  move_of_way,
  moves_over,
  number_over,
  open_among,
  open_ways,
  place_among,
  place_over,
  plan_over,
  spot_at,
  stay_over,
  way_among,
  way_over as way_there,
  ways_over,
};
ghost use Rattle.label_search.specs.Paths.{move_at as move_of, place_at as place_of};

use crate::chart_loans::{Charted, ChartedWays};
use crate::charts::{Chart, ChartCall, ChartSpot, ChartWay};
use crate::plans::{Move, Place, Plan, Target};
use crate::stays::stay_of;
use rail_types::{Claim, List, Tick};
use std::marker::Model;

#[derive(Clone, Copy)]
enum Lender<'a> {
    Listed(&'a [Place]),
    Charted(Charted<'a>),
}

/// A plan that is lent.
#[derive(Drop)]
pub struct LentPlan<'a> {
    lender: Lender<'a>,
    pub(crate) horizon: Tick,
}

impl<'a> Model for LentPlan<'a> {
    ghost use Rattle.label_search.specs.declared.plans.Plan.{Plan as plan_type};

    ghost Value = { plan_type };

    ghost use Rattle.label_search.specs.Lent.{places_lent};

    ghost view = { λ a. record { places = places_lent a.lender; horizon = a.horizon } };
}

#[derive(Clone, Copy)]
enum MovesLender<'a> {
    Listed(&'a [Move]),
    Charted(ChartedWays<'a>),
}

/// The moves from a place, which are lent.
#[derive(Drop)]
pub(crate) struct LentMoves<'a> {
    lender: MovesLender<'a>,
}

impl<'a> Model for LentMoves<'a> {
    ghost use Rattle.std.specs.Prelude.{List as list_of};
    ghost use Rattle.label_search.specs.declared.plans.Move.{Move as move_type};

    ghost Value = { list_of move_type };

    ghost use Rattle.label_search.specs.Lent.{moves_lent};

    ghost view = { λ a. moves_lent a.lender };
}

/// A place that is lent.
#[derive(Drop)]
pub(crate) struct LentPlace<'a> {
    pub(crate) standing: bool,
    pub(crate) dwell: Tick,
    pub(crate) waits: &'a [Claim],
    pub(crate) moves: LentMoves<'a>,
}

impl<'a> Model for LentPlace<'a> {
    ghost use Rattle.label_search.specs.declared.plans.Place.{Place as place_type};

    ghost Value = { place_type };

    ghost view = { λ a. record {
      standing = a.standing;
      dwell = a.dwell;
      waits = a.waits.now;
      moves = a.moves;
    } };
}

/// A move that is lent.
#[derive(Drop)]
pub(crate) struct LentMove<'a> {
    pub(crate) target: Target,
    pub(crate) run: Tick,
    pub(crate) pieces: &'a [Claim],
}

impl<'a> Model for LentMove<'a> {
    ghost use Rattle.label_search.specs.declared.plans.Move.{Move as move_type};

    ghost Value = { move_type };

    ghost view = { λ a. record { target = a.target; run = a.run; pieces = a.pieces.now } };
}

/// The first of some moves, and those behind it.
#[derive(Drop)]
pub(crate) struct FirstMove<'a> {
    pub(crate) step: LentMove<'a>,
    pub(crate) behind: LentMoves<'a>,
}

impl<'a> LentPlan<'a> {
    /// A plan whose places are listed.
    pub fn listed(plan: &'a Plan) -> LentPlan<'a>
        ensures { result ≡ plan.now }
    {
        LentPlan {
            lender: Lender::Listed(plan.places.as_slice()),
            horizon: plan.horizon,
        }
    }

    /// The plan of calls over a chart, from the ways of the start, up to a horizon.
    pub fn charted(
        chart: &'a Chart,
        starts: &'a List<ChartWay>,
        calls: &'a List<ChartCall>,
        horizon: u32,
    ) -> LentPlan<'a>
        requires whole { LeadOnChart chart.now.spots starts.now }
        requires numbers { HasNumbers chart.now.spots calls.now }
        ensures { result ≡ plan_over chart.now.spots starts.now calls.now (pos horizon) }
    {
        let charted = Charted {
            spots: chart.spots.as_slice(),
            starts: starts.as_slice(),
            calls: calls.as_slice(),
        };
        LentPlan {
            lender: Lender::Charted(charted),
            horizon: i64::from(horizon),
        }
    }

    /// Where a move leads.
    pub fn target(&self, place: u32, number: usize) -> Target
        requires place { place < length self.now.places }
        requires number { number < length (place_of self.now place).moves }
        ensures { result ≡ (move_of self.now place number).target }
    {
        let one = self.place(place as usize).moves.get(number);
        one.target
    }

    /// How many places it has.
    pub(crate) fn count(&self) -> usize
        ensures { result ≡ length self.now.places }
    {
        match &self.lender {
            Lender::Listed(places) => places.len(),
            Lender::Charted(charted) => charted.spots.len() * charted.calls.len() + 1,
        }
    }

    /// The place of a number.
    pub(crate) fn place(&self, number: usize) -> LentPlace<'a>
        requires { number < length self.now.places }
        ensures { result ≡ place_of self.now number }
    {
        match &self.lender {
            Lender::Listed(places) => place_listed(places, number),
            Lender::Charted(charted) => charted_place(charted, number),
        }
    }
}

impl<'a> LentMoves<'a> {
    /// How many moves there are.
    pub(crate) fn len(&self) -> usize
        ensures { result ≡ length self.now }
    {
        match &self.lender {
            MovesLender::Listed(moves) => moves.len(),
            MovesLender::Charted(charted) => count_open(charted.call, charted.ways),
        }
    }

    /// A number that is not below how many there are, which takes no look at each of them.
    pub(crate) fn most(&self) -> usize
        ensures { length self.now ≤ result }
    {
        match &self.lender {
            MovesLender::Listed(moves) => moves.len(),
            MovesLender::Charted(charted) => charted.ways.len(),
        }
    }

    /// The same, lent once more.
    pub(crate) fn again(&self) -> LentMoves<'a>
        ensures { result ≡ self.now }
    {
        LentMoves {
            lender: self.lender,
        }
    }

    /// The first of them, and those behind it.
    pub(crate) fn split_first(&self) -> Option<FirstMove<'a>>
        ensures some { IfSome result (λ parts. self.now ≡ parts.step ∷ parts.behind) }
        ensures none { IfNone result (self.now ≡ []) }
    {
        match &self.lender {
            MovesLender::Listed(moves) => first_listed(moves),
            MovesLender::Charted(charted) => first_charted(charted),
        }
    }

    /// The move of a number.
    pub(crate) fn get(&self, number: usize) -> LentMove<'a>
        requires { number < length self.now }
        ensures { result ≡ move_among self.now number }
    {
        match &self.lender {
            MovesLender::Listed(moves) => move_listed(moves, number),
            MovesLender::Charted(charted) => charted_move(charted, number),
        }
    }
}

impl<'a> LentPlace<'a> {
    /// The claims of one tick of waiting there at tick 0.
    pub(crate) fn waits(&self) -> &'a [Claim]
        ensures { result.now ≡ self.now.waits }
    {
        self.waits
    }

    /// How many moves lead on from there.
    pub(crate) fn count(&self) -> usize
        ensures { result ≡ length self.now.moves }
    {
        self.moves.len()
    }
}

impl<'a> LentMove<'a> {
    /// Its claims when it enters at tick 0.
    pub(crate) fn pieces(&self) -> &'a [Claim]
        ensures { result.now ≡ self.now.pieces }
    {
        self.pieces
    }

    /// Where it leads.
    pub(crate) fn target(&self) -> Target
        ensures { result ≡ self.now.target }
    {
        self.target
    }
}

// The place of a number among those that are listed.
fn place_listed<'a>(places: &'a [Place], number: usize) -> LentPlace<'a>
    requires { number < length places.now }
    ensures { result ≡ place_among places.now number }
{
    let place = &places[number];
    LentPlace {
        standing: place.standing,
        dwell: place.dwell,
        waits: place.waits.as_slice(),
        moves: LentMoves {
            lender: MovesLender::Listed(place.moves.as_slice()),
        },
    }
}

// The move of a number among those that are listed.
fn move_listed<'a>(moves: &'a [Move], number: usize) -> LentMove<'a>
    requires { number < length moves.now }
    ensures { result ≡ move_among moves.now number }
{
    lent_move(&moves[number])
}

fn lent_move<'a>(one: &'a Move) -> LentMove<'a>
    ensures { result ≡ one.now }
{
    LentMove {
        target: one.target,
        run: one.run,
        pieces: one.pieces.as_slice(),
    }
}

// The first of the moves that are listed, and those behind it.
fn first_listed<'a>(moves: &'a [Move]) -> Option<FirstMove<'a>>
    ensures some { IfSome result (λ parts. moves.now ≡ parts.step ∷ parts.behind) }
    ensures none { IfNone result (moves.now ≡ []) }
{
    let Some((one, behind)) = moves.split_first() else {
        return None;
    };
    Some(FirstMove {
        step: lent_move(one),
        behind: LentMoves {
            lender: MovesLender::Listed(behind),
        },
    })
}

// The place of a number over a chart.
fn charted_place<'a>(charted: &Charted<'a>, number: usize) -> LentPlace<'a>
    requires { number < count_over charted.now.spots.now charted.now.calls.now }
    ensures { result ≡ place_over charted.now.spots.now charted.now.starts.now
        charted.now.calls.now number }
{
    if number == 0 {
        return charted_start(charted);
    }
    let stay = stay_of(number - 1, charted.calls.len());
    charted_stay(charted, stay.spot, stay.made)
}

// The place of the start over a chart.
fn charted_start<'a>(charted: &Charted<'a>) -> LentPlace<'a>
    ensures { result ≡ place_over charted.now.spots.now charted.now.starts.now
        charted.now.calls.now 0 }
{
    let call = &charted.calls[0];
    LentPlace {
        standing: true,
        dwell: call.dwell,
        waits: &[],
        moves: charted_moves(charted, charted.starts, 0),
    }
}

// The place at a spot where so many calls are made.
fn charted_stay<'a>(charted: &Charted<'a>, spot: usize, made: usize) -> LentPlace<'a>
    requires spot { spot < length charted.now.spots.now }
    requires made { made < length charted.now.calls.now }
    ensures { result ≡ stay_over charted.now.calls.now made (spot_at charted.now.spots.now spot) }
{
    let spot = &charted.spots[spot];
    let call = &charted.calls[made];
    LentPlace {
        standing: spot.standing,
        dwell: if spot.standing { call.dwell } else { 0 },
        waits: spot.waits.as_slice(),
        moves: charted_moves(charted, spot.ways.as_slice(), made as u32),
    }
}

// The moves that ways are where so many calls are made.
fn charted_moves<'a>(charted: &Charted<'a>, ways: &'a [ChartWay], made: u32) -> LentMoves<'a>
    requires made { made < length charted.now.calls.now }
    requires ways { LeadWithin (length charted.now.spots.now) ways.now }
    ensures { result ≡ moves_over charted.now.calls.now made ways.now }
{
    LentMoves {
        lender: MovesLender::Charted(ChartedWays {
            call: &charted.calls[made as usize],
            ways,
            levels: charted.calls.len() as u32,
            made,
        }),
    }
}

fn is_called(call: &ChartCall, block: u32) -> bool
    ensures { result ≡ called_there call.now block }
{
    call.blocks.as_slice().contains(&block)
}

fn is_open(call: &ChartCall, way: &ChartWay) -> bool
    ensures { result ≡ open_there call.now way.now }
{
    !way.halts || is_called(call, way.block)
}

fn count_open(call: &ChartCall, ways: &[ChartWay]) -> usize
    ensures { result ≡ length (open_among call.now ways.now) }
{
    let mut count = 0;
    for way in ways {
        if is_open(call, way) {
            count += 1;
        }
    }
    count
}

// The open way of a number.
fn open_way<'a>(call: &ChartCall, ways: &'a [ChartWay], number: usize) -> &'a ChartWay
    requires { number < length (open_among call.now ways.now) }
    ensures { result.now ≡ way_among call.now ways.now number }
{
    let mut left = number;
    for way in ways {
        if is_open(call, way) {
            if left == 0 {
                return way;
            }
            left -= 1;
        }
    }
    unreachable!()
}

// The move that the open way of a number is.
fn charted_move<'a>(charted: &ChartedWays<'a>, number: usize) -> LentMove<'a>
    requires { number < length (open_among charted.now.call.now charted.now.ways.now) }
    ensures { result ≡ move_of_way charted.now.levels charted.now.made
        (way_among charted.now.call.now charted.now.ways.now number) }
{
    move_along(charted, open_way(charted.call, charted.ways, number))
}

// The move that a way is.
fn move_along<'a>(charted: &ChartedWays<'a>, way: &'a ChartWay) -> LentMove<'a>
    requires { number_over charted.now.levels way.now.next (charted.now.made + 1) < 2 ^ 32 }
    ensures { result ≡ move_of_way charted.now.levels charted.now.made way.now }
{
    if way.halts && charted.levels <= charted.made + 1 {
        return LentMove {
            target: Target::End,
            run: way.run,
            pieces: way.ending.as_slice(),
        };
    }
    let made = if way.halts {
        charted.made + 1
    } else {
        charted.made
    };
    LentMove {
        target: Target::Place(way.next * charted.levels + made + 1),
        run: way.run,
        pieces: way.pieces.as_slice(),
    }
}

// The first of the moves that open ways are, and those behind it.
fn first_charted<'a>(charted: &ChartedWays<'a>) -> Option<FirstMove<'a>>
    ensures some { IfSome result (λ parts. map (move_of_way charted.now.levels charted.now.made)
        (open_among charted.now.call.now charted.now.ways.now) ≡ parts.step ∷ parts.behind) }
    ensures none { IfNone result (map (move_of_way charted.now.levels charted.now.made)
        (open_among charted.now.call.now charted.now.ways.now) ≡ []) }
{
    let mut left = charted.ways;
    while let Some((way, behind)) = left.split_first() {
        if is_open(charted.call, way) {
            return Some(first_along(charted, way, behind));
        }
        left = behind;
    }
    None
}

// The move that an open way is, and those that the ways behind it are.
fn first_along<'a>(
    charted: &ChartedWays<'a>,
    way: &'a ChartWay,
    behind: &'a [ChartWay],
) -> FirstMove<'a>
    requires way { number_over charted.now.levels way.now.next (charted.now.made + 1) < 2 ^ 32 }
    requires behind { All (λ way. number_over charted.now.levels way.next (charted.now.made + 1)
        < 2 ^ 32) behind.now }
    ensures step { result.step ≡ move_of_way charted.now.levels charted.now.made way.now }
    ensures behind { result.behind ≡ map (move_of_way charted.now.levels charted.now.made)
        (open_among charted.now.call.now behind.now) }
{
    FirstMove {
        step: move_along(charted, way),
        behind: LentMoves {
            lender: MovesLender::Charted(ChartedWays {
                call: charted.call,
                ways: behind,
                levels: charted.levels,
                made: charted.made,
            }),
        },
    }
}

/// The way that a move of a plan over a chart is.
pub fn way_on_chart<'a>(
    chart: &'a Chart,
    starts: &'a List<ChartWay>,
    calls: &List<ChartCall>,
    place: u32,
    number: usize,
) -> &'a ChartWay
    requires numbers { HasNumbers chart.now.spots calls.now }
    requires place { place < count_over chart.now.spots calls.now }
    requires number { number < length (open_ways calls.now (made_over calls.now place)
        (ways_over chart.now.spots starts.now calls.now place)) }
    ensures { result.now ≡ way_there chart.now.spots starts.now calls.now place number }
{
    let calls = calls.as_slice();
    if place == 0 {
        return open_way(&calls[0], starts.as_slice(), number);
    }
    let levels = calls.len();
    let at = (place - 1) as usize;
    way_from(
        chart.spots.as_slice(),
        calls,
        at / levels,
        at % levels,
        number,
    )
}

// The open way of a number from a spot where so many calls are made.
fn way_from<'a>(
    spots: &'a [ChartSpot],
    calls: &[ChartCall],
    spot: usize,
    made: usize,
    number: usize,
) -> &'a ChartWay
    requires spot { spot < length spots.now }
    requires made { made < length calls.now }
    requires number { number < length (open_ways calls.now made (spot_at spots.now spot).ways) }
    ensures { result.now ≡ way_among (call_at calls.now made) (spot_at spots.now spot).ways number }
{
    open_way(&calls[made], spots[spot].ways.as_slice(), number)
}
