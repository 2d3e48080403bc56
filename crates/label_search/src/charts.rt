//! The chart of a train: what it can do on a network, whatever a request asks of it.

use rail_types::{Claim, List, Tick};

/// A way from a spot: the block that is run through, whether the train halts at its end, the number
/// of the spot behind it, the ticks from its entering to its leaving, its claims when it enters at
/// tick 0, and what it claims in place of these where it halts and the path ends.
#[derive(Debug, Drop)]
pub struct ChartWay {
    pub block: u32,
    pub halts: bool,
    pub next: u32,
    pub run: Tick,
    pub pieces: List<Claim>,
    pub ending: List<Claim>,
}

/// A spot: whether the train stands there, the claims of one tick of waiting at tick 0, and the
/// ways from there.
#[derive(Debug, Drop)]
pub struct ChartSpot {
    pub standing: bool,
    pub waits: List<Claim>,
    pub ways: List<ChartWay>,
}

/// The spots of a train by their numbers.
#[derive(Debug, Drop)]
pub struct Chart {
    pub spots: List<ChartSpot>,
}

/// What is asked of a train that has made so many calls: the blocks at whose ends it may halt next,
/// and the least ticks that it waits where it stands.
#[derive(Debug, Drop)]
pub struct ChartCall {
    pub blocks: List<u32>,
    pub dwell: Tick,
}
