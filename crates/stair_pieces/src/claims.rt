//! The claims of one step, and the zones that a train keeps while it waits.

ghost use Rattle.std.specs.Prelude.{◌≡◌, ◌<◌, ◌++◌, [], true, length, All, IfOk, OnOk};
ghost use Rattle.rail_types.specs.Limits.{IsBlockWithinLimits, IsTrainWithinLimits};
ghost use Rattle.rail_types.specs.Limits.{IsSettingsWithinLimits};
ghost use Rattle.running_time.specs.Limits.{IsEnterWithinLimits};
ghost use Rattle.blocking_time.specs.Runs.{block_at};
ghost use Rattle.blocking_time.specs.Passages.{passages_of};
ghost use Rattle.stair_pieces.specs.Places.{
  entry_of,
  left_after,
  standing_zones,
  uncleared as passages_left,
};
ghost use Rattle.stair_pieces.specs.Pieces.{begin_of_step, piece, pieces_of, step_approach};
ghost use Rattle.stair_pieces.specs.Pieces.{step_end};
ghost use Rattle.stair_pieces.specs.Steps.{IsTailIn, IsPlaceIn};

use crate::{Place, Step};
use blocking_time::{Passage, entry_after};
use no_memory::NoMemory;
use rail_types::{Block, Claim, Network, Settings, Span, Tick, Train};
use running_time::{Edge, Enter, part, run, sight};
use std::alloc::Global;

// Puts behind the others those passages of a block that are not cleared when the head has gone so
// many metres from its beginning.
fn push_left(
    passages: &mut Vec<Passage>,
    train: &Train,
    block: &Block,
    gone: u32,
) -> Result<(), NoMemory>
    requires train { IsTrainWithinLimits train.now }
    requires block { IsBlockWithinLimits block.now }
    ensures { OnOk result (passages.new.items
        ≡ passages.old.items ++ left_after gone (passages_of train.now block.now.cells)) }
{
    for cell in block.cells.as_slice() {
        let passage = Passage::of(train, cell);
        if gone < passage.metres {
            passages.push(Passage {
                zone: passage.zone,
                metres: passage.metres - gone,
            })?;
        }
    }
    Ok(())
}

// The passages that a train has not cleared when its head is at the end of the last of these
// blocks, that block's first.
fn uncleared(
    alloc: Global,
    net: &Network,
    train: &Train,
    tail: &[u32],
) -> Result<Vec<Passage>, NoMemory>
    requires tail { IsTailIn net.now train.now tail.now }
    ensures { IfOk result (λ passages.
        passages.items ≡ passages_left net.now train.now tail.now) }
{
    let mut passages = Vec::new(alloc);
    let mut at = tail.len();
    let mut gone = 0u32;
    while at > 0 && gone < train.length_m {
        at -= 1;
        let block = &net.blocks.as_slice()[tail[at] as usize];
        gone += block.length_m;
        push_left(&mut passages, train, block, gone)?;
    }
    Ok(passages)
}

/// The zones that a train keeps while it waits at a place.
pub fn standing(
    alloc: Global,
    net: &Network,
    train: &Train,
    place: &Place,
) -> Result<Vec<u32>, NoMemory>
    requires tail { IsTailIn net.now train.now place.now.tail }
    ensures { IfOk result (λ zones. zones.items ≡ standing_zones net.now train.now place.now) }
{
    let mut zones = Vec::new(alloc);
    let left = uncleared(alloc, net, train, place.tail.as_slice())?;
    for passage in left.as_slice() {
        zones.push(passage.zone)?;
    }
    Ok(zones)
}

fn block_of<'a>(net: &'a Network, number: u32) -> &'a Block
    requires blocks { All IsBlockWithinLimits net.now.blocks }
    requires number { number < length net.now.blocks }
    ensures value { result.now ≡ block_at net.now number }
    ensures limits { IsBlockWithinLimits result.now }
{
    &net.blocks.as_slice()[number as usize]
}

/// How a train enters the next block from a place: from a stand, or as it left the block of its
/// head.
pub fn entry(net: &Network, train: &Train, place: &Place) -> Enter
    requires tail { IsTailIn net.now train.now place.now.tail }
    requires begins { place.now.tail ≡ [] → place.now.standing ≡ true }
    ensures value { result ≡ entry_of net.now train.now place.now }
    ensures limits { IsEnterWithinLimits result }
{
    if place.standing {
        return Enter::Still;
    }
    let tail = place.tail.as_slice();
    entry_after(block_of(net, tail[tail.len() - 1]), train, false)
}

// When the zones ahead are blocked for a train that goes through a block
// and passes its end at tick 0.
fn set_ahead(block: &Block, train: &Train, settings: &Settings, entered: Enter) -> Tick
    requires block { IsBlockWithinLimits block.now }
    requires train { IsTrainWithinLimits train.now }
    requires settings { IsSettingsWithinLimits settings.now }
    requires entered { IsEnterWithinLimits entered }
    ensures { result ≡ step_approach settings.now train.now block.now entered }
{
    let set = -run(block, train, settings, entered, Edge::Rolling) - i64::from(settings.setting);
    match entered {
        Enter::Still => set,
        Enter::From(_) => set - sight(block, train, settings),
    }
}

// From when on the next block's zones are blocked, its head entering at tick 0.
fn begin(net: &Network, settings: &Settings, train: &Train, place: &Place) -> Tick
    requires place { IsPlaceIn net.now settings.now train.now place.now }
    ensures { result ≡ begin_of_step net.now settings.now train.now place.now }
{
    if place.standing {
        return -i64::from(settings.setting);
    }
    let tail = place.tail.as_slice();
    set_ahead(
        block_of(net, tail[tail.len() - 1]),
        train,
        settings,
        place.entered,
    )
}

// When a passage is cleared and released in a step whose head enters at tick 0;
// where it is not, the step's end.
fn end(
    net: &Network,
    settings: &Settings,
    train: &Train,
    place: &Place,
    step: Step,
    metres: u32,
) -> Tick
    requires place { IsPlaceIn net.now settings.now train.now place.now }
    requires step { step.block < length net.now.blocks }
    ensures { result ≡ step_end net.now settings.now train.now place.now step metres }
{
    let block = block_of(net, step.block);
    let entered = entry(net, train, place);
    if metres <= block.length_m {
        part(block, train, settings, entered, step.exit, metres) + i64::from(settings.release)
    } else {
        run(block, train, settings, entered, step.exit)
    }
}

// The claim of a passage from the begin of a span on, which ends with the step.
fn piece_of(
    net: &Network,
    settings: &Settings,
    train: &Train,
    place: &Place,
    step: Step,
    span: &Span,
    passage: &Passage,
) -> Claim
    requires place { IsPlaceIn net.now settings.now train.now place.now }
    requires step { step.block < length net.now.blocks }
    ensures { result
        ≡ piece net.now settings.now train.now place.now step span.now.from passage.now }
{
    Claim {
        zone: passage.zone,
        span: Span {
            from: span.from,
            to: end(net, settings, train, place, step, passage.metres),
        },
    }
}

/// The claims of a step from a place, its head entering the next block at tick 0: those of that
/// block, then those of the blocks that are still under the train.
pub fn pieces(
    alloc: Global,
    net: &Network,
    settings: &Settings,
    train: &Train,
    place: &Place,
    step: Step,
) -> Result<Vec<Claim>, NoMemory>
    requires place { IsPlaceIn net.now settings.now train.now place.now }
    requires step { step.block < length net.now.blocks }
    ensures { IfOk result (λ claims.
        claims.items ≡ pieces_of net.now settings.now train.now place.now step) }
{
    let mut claims = Vec::new(alloc);
    let fresh = Span {
        from: begin(net, settings, train, place),
        to: 0,
    };
    for cell in block_of(net, step.block).cells.as_slice() {
        let passage = Passage::of(train, cell);
        claims.push(piece_of(net, settings, train, place, step, &fresh, &passage))?;
    }
    let entered = Span { from: 0, to: 0 };
    let passages = uncleared(alloc, net, train, place.tail.as_slice())?;
    for passage in passages.as_slice() {
        claims.push(piece_of(net, settings, train, place, step, &entered, passage))?;
    }
    Ok(claims)
}
