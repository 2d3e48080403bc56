//! The limits of the numbers of these types, each by one name.

use crate::Tick;

/// Longest network file, in bytes.
pub const MAX_NETWORK_FILE_BYTES: u64 = 67_108_864;
/// Longest base file and longest train file, in bytes.
pub const MAX_TIMETABLE_FILE_BYTES: u64 = 16_777_216;
/// Longest id of a file, in bytes of UTF-8; the shortest has 1.
pub const MAX_ID_BYTES: usize = 255;
/// Longest track, in metres; the shortest has 1.
pub const MAX_TRACK_LENGTH_M: u32 = 1_000_000;
/// Most trains of a train file.
pub const MAX_TRAINS: u32 = 65_536;
/// Most claims of a base file.
pub const MAX_BASE_CLAIMS: u32 = 262_144;

/// Most zones, most points, most stops and most blocks of a network, each for itself.
pub const MAX_OBJECTS: u32 = 65_536;
/// Most cells over all blocks of a network.
pub const MAX_CELLS: u32 = 1_048_576;
/// Longest block, in metres; the shortest has 1.
pub const MAX_BLOCK_LENGTH_M: u32 = 10_000_000;
/// Greatest sight distance, in metres.
pub const MAX_SIGHT_M: u32 = 100_000;
/// Greatest speed of a block and of a train, in millimetres a second; the least is 1.
pub const MAX_SPEED_MM_S: u32 = 200_000;

/// Longest train, in metres; the shortest has 1.
pub const MAX_TRAIN_LENGTH_M: u32 = 5_000;
/// Greatest acceleration and greatest braking, in millimetres a second squared; the least is 1.
pub const MAX_ACCEL_MM_S2: u32 = 10_000;
/// Greatest allowance on a running time, in per cent.
pub const MAX_ALLOWANCE_PERCENT: u32 = 1_000;
/// Longest name of a train, in bytes of UTF-8; the shortest has 1.
pub const MAX_TRAIN_NAME_BYTES: usize = 255;

/// Longest tick, in seconds; the shortest has 1.
pub const MAX_TICK_S: u32 = 3_600;
/// Most ticks for setting a route.
pub const MAX_SETTING: u32 = 1_000;
/// Most ticks for releasing a zone.
pub const MAX_RELEASE: u32 = 1_000;
/// The last tick of a timetable at most; at least 1.
pub const MAX_HORIZON: u32 = 17_280;
/// Fewest bytes that a journal may be given.
pub const MIN_JOURNAL_BYTES: u64 = 77;
/// Most bytes that a journal may be given.
pub const MAX_JOURNAL_BYTES: u64 = 268_435_456;
/// Greatest tick of a claim, a window or an entry; the least is its negative.
pub const MAX_TICK: Tick = 100_000;

/// A bound on the ticks of all claims that are held: those of paths lie within the horizon, but for
/// setting, the longest sight distance at the least speed, and release.
pub const FAR_TICK: Tick = 1_099_511_627_776;

/// Greatest number of a line, and greatest position of an entry.
pub const MAX_NUMBER: u64 = 9_223_372_036_854_775_807;
/// Longest name of a client, in bytes; the shortest has 1.
pub const MAX_OWNER_BYTES: usize = 32;
/// Most stops that a request names.
pub const MAX_STOPS: u32 = 16;
/// Longest dwell, in ticks.
pub const MAX_DWELL: u32 = 17_280;
/// Most runs of a path that a client gives; the fewest is 1.
pub const MAX_PINNED_RUNS: u32 = 4_096;
/// Most claims of a hold; the fewest is 1.
pub const MAX_HOLD_CLAIMS: u32 = 64;
/// Longest reason of a hold, in bytes.
pub const MAX_REASON_BYTES: usize = 255;
/// Most places of a request.
pub const MAX_PLACES: u32 = 65_536;
