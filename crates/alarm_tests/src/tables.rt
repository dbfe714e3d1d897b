// The tables.
use crate::play::{ARRIVED, BEFORE_CLOCK, BEYOND_REACH, Call, DONE, RANG, Row};

pub const LAST_TICK: u64 = 0x3fff_ffff_ffff_ffff;

pub const LAST_DAY: u64 = 0xffff_ffff_0000_0000;

const DAY: u64 = 0x1_0000_0000;

// From 0, at any kind of time: goals at, one short of and one past the reaches of 4,095 and 65,535 ticks.
pub const EVERYWHERE: [Row; 31] = [
    (Call::Clear, DONE, 0, None),
    (Call::Set(0), DONE, 0, Some(0)),
    (Call::Pass(0), ARRIVED, 0, Some(0)),
    (Call::Pass(1), RANG, 0, None),
    (Call::Pass(1), ARRIVED, 1, None),
    (Call::Set(0), BEFORE_CLOCK, 1, None),
    (Call::Set(4_096), DONE, 1, Some(4_096)),
    (Call::Set(0), BEFORE_CLOCK, 1, Some(4_096)),
    (Call::Pass(4_096), ARRIVED, 4_096, Some(4_096)),
    (Call::Pass(4_097), RANG, 4_096, None),
    (Call::Set(8_190), DONE, 4_096, Some(8_190)),
    (Call::Pass(9_000), RANG, 8_190, None),
    (Call::Set(12_286), DONE, 8_190, Some(12_286)),
    (Call::Pass(12_285), ARRIVED, 12_285, Some(12_286)),
    (Call::Pass(12_284), BEFORE_CLOCK, 12_285, Some(12_286)),
    (Call::Pass(12_287), RANG, 12_286, None),
    (Call::Set(77_821), DONE, 12_286, Some(77_821)),
    (Call::Pass(77_822), RANG, 77_821, None),
    (Call::Set(143_355), DONE, 77_821, Some(143_355)),
    (Call::Pass(143_355), ARRIVED, 143_355, Some(143_355)),
    (Call::Clear, DONE, 143_355, None),
    (Call::Pass(200_000), ARRIVED, 200_000, None),
    (Call::Set(265_536), DONE, 200_000, Some(265_536)),
    (Call::Pass(265_535), ARRIVED, 265_535, Some(265_536)),
    (Call::Set(265_535), DONE, 265_535, Some(265_535)),
    (Call::Pass(265_536), RANG, 265_535, None),
    (Call::Set(1_000_000), DONE, 265_535, Some(1_000_000)),
    (Call::Pass(500_000), ARRIVED, 500_000, Some(1_000_000)),
    (Call::Set(900_000), DONE, 500_000, Some(900_000)),
    (Call::Pass(899_999), ARRIVED, 899_999, Some(900_000)),
    (Call::Pass(2_000_000), RANG, 900_000, None),
];

// From 5,000 ticks before the last tick.
pub const TICKS_END: [Row; 5] = [
    (
        Call::Set(LAST_TICK),
        DONE,
        LAST_TICK - 5_000,
        Some(LAST_TICK),
    ),
    (
        Call::Pass(LAST_TICK - 1),
        ARRIVED,
        LAST_TICK - 1,
        Some(LAST_TICK),
    ),
    (Call::Pass(LAST_TICK), ARRIVED, LAST_TICK, Some(LAST_TICK)),
    (
        Call::Set(LAST_TICK - 1),
        BEFORE_CLOCK,
        LAST_TICK,
        Some(LAST_TICK),
    ),
    (Call::Set(LAST_TICK), DONE, LAST_TICK, Some(LAST_TICK)),
];

// From tick 8,639,000 of day 0, over midnight, over days, and to the last tick of the last day.
pub const DAYS: [Row; 6] = [
    (Call::Set(DAY), DONE, 8_639_000, Some(DAY)),
    (Call::Pass(DAY), ARRIVED, DAY, Some(DAY)),
    (Call::Pass(DAY + 1), RANG, DAY, None),
    (Call::Set(4 * DAY + 5), DONE, DAY, Some(4 * DAY + 5)),
    (Call::Pass(4 * DAY), ARRIVED, 4 * DAY, Some(4 * DAY + 5)),
    (Call::Pass(5 * DAY), RANG, 4 * DAY + 5, None),
];

// From tick 8,630,000 of the last day.
pub const DAYS_END: [Row; 3] = [
    (
        Call::Set(LAST_DAY + 8_639_999),
        DONE,
        LAST_DAY + 8_630_000,
        Some(LAST_DAY + 8_639_999),
    ),
    (
        Call::Pass(LAST_DAY + 8_639_999),
        ARRIVED,
        LAST_DAY + 8_639_999,
        Some(LAST_DAY + 8_639_999),
    ),
    (Call::Clear, DONE, LAST_DAY + 8_639_999, None),
];

// The down-counter from 0.
pub const COUNTED: [Row; 9] = [
    (Call::Set(65_536), BEYOND_REACH, 0, None),
    (Call::Set(65_535), DONE, 0, Some(65_535)),
    (Call::Set(65_536), BEYOND_REACH, 0, Some(65_535)),
    (Call::Pass(65_535), ARRIVED, 65_535, Some(65_535)),
    (Call::Pass(65_534), BEFORE_CLOCK, 65_535, Some(65_535)),
    (Call::Pass(70_000), RANG, 65_535, None),
    (Call::Set(65_535), DONE, 65_535, Some(65_535)),
    (Call::Clear, DONE, 65_535, None),
    (Call::Pass(70_000), ARRIVED, 70_000, None),
];

// The low-bit matcher from 4,000: low bits below and above those of the clock.
pub const MATCHED: [Row; 9] = [
    (Call::Set(8_096), BEYOND_REACH, 4_000, None),
    (Call::Set(8_095), DONE, 4_000, Some(8_095)),
    (Call::Pass(4_096), ARRIVED, 4_096, Some(8_095)),
    (Call::Set(4_095), BEFORE_CLOCK, 4_096, Some(8_095)),
    (Call::Set(4_100), DONE, 4_096, Some(4_100)),
    (Call::Pass(4_100), ARRIVED, 4_100, Some(4_100)),
    (Call::Pass(20_000), RANG, 4_100, None),
    (Call::Set(4_100), DONE, 4_100, Some(4_100)),
    (Call::Clear, DONE, 4_100, None),
];
