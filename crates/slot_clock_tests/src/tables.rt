// The same rows for every slot clock: weights, then adds, runs and reads with their answers.
use crate::step::Step;
use slot_clock::refusal::ClockRefusal;

// One session owns every slot.
pub static ONE_SESSION: [Step; 16] = [
    Step::Cursor(0),
    Step::Owed(0, Ok(0)),
    Step::Add(0, 5, Ok(4)),
    Step::Owed(0, Ok(5)),
    Step::Run(2, Ok(())),
    Step::Cursor(2),
    Step::Owed(0, Ok(3)),
    Step::Add(0, 1, Ok(5)),
    Step::Run(10, Ok(())),
    Step::Cursor(6),
    Step::Owed(0, Ok(0)),
    Step::Add(0, 65535, Ok(65540)),
    Step::Run(65534, Ok(())),
    Step::Owed(0, Ok(1)),
    Step::Run(1, Ok(())),
    Step::Cursor(65541),
];

// Each refusal of adding, running and reading, before and after a packet; the ticks end at 17,592,186,044,416.
pub static REFUSALS_CHANGE_NOTHING: [Step; 19] = [
    Step::Add(2, 1, Err(ClockRefusal::UnknownSession)),
    Step::Add(0, 0, Err(ClockRefusal::Size)),
    Step::Add(0, 65536, Err(ClockRefusal::Size)),
    Step::Owed(2, Err(ClockRefusal::UnknownSession)),
    Step::Cursor(0),
    Step::Add(1, 2, Ok(5)),
    Step::Add(2, 1, Err(ClockRefusal::UnknownSession)),
    Step::Add(1, 0, Err(ClockRefusal::Size)),
    Step::Add(1, 65536, Err(ClockRefusal::Size)),
    Step::Owed(0, Ok(0)),
    Step::Owed(1, Ok(2)),
    Step::Run(17592186044417, Err(ClockRefusal::TicksPastEnd)),
    Step::Cursor(0),
    Step::Owed(1, Ok(2)),
    Step::Run(17592186044416, Ok(())),
    Step::Cursor(6),
    Step::Run(1, Err(ClockRefusal::TicksPastEnd)),
    Step::Run(0, Ok(())),
    Step::Add(1, 1, Ok(8)),
];

// A weight of 4,096.
pub static HEAVIEST_WEIGHT: [Step; 10] = [
    Step::Add(0, 65535, Ok(65534)),
    Step::Cursor(0),
    Step::Run(4096, Ok(())),
    Step::Cursor(4096),
    Step::Owed(0, Ok(61439)),
    Step::Add(0, 1, Ok(65535)),
    Step::Run(100000, Ok(())),
    Step::Cursor(65536),
    Step::Add(0, 4096, Ok(69631)),
    Step::Owed(0, Ok(4096)),
];

// A session with one slot in each round of 4,096.
pub static ONE_BESIDE_MANY: [Step; 12] = [
    Step::Add(0, 3, Ok(8192)),
    Step::Add(1, 1, Ok(1)),
    Step::Run(1, Ok(())),
    Step::Cursor(1),
    Step::Run(1, Ok(())),
    Step::Cursor(2),
    Step::Run(1, Ok(())),
    Step::Cursor(4097),
    Step::Run(1, Ok(())),
    Step::Cursor(8193),
    Step::Add(0, 2, Ok(16384)),
    Step::Owed(0, Ok(2)),
];

// A session that returns after a long silence, and ticks far beyond what is owed.
pub static BACK_AFTER_SILENCE: [Step; 19] = [
    Step::Add(0, 7, Ok(18)),
    Step::Add(1, 2, Ok(3)),
    Step::Run(3, Ok(())),
    Step::Add(2, 1, Ok(5)),
    Step::Run(40, Ok(())),
    Step::Cursor(19),
    Step::Add(0, 1000, Ok(3018)),
    Step::Run(999, Ok(())),
    Step::Cursor(3014),
    Step::Add(1, 4, Ok(3020)),
    Step::Owed(1, Ok(4)),
    Step::Run(3, Ok(())),
    Step::Cursor(3017),
    Step::Owed(0, Ok(1)),
    Step::Owed(1, Ok(1)),
    Step::Run(1000000000000, Ok(())),
    Step::Cursor(3021),
    Step::Add(2, 3, Ok(3035)),
    Step::Owed(2, Ok(3)),
];

// Session 0 runs dry in slot 4: runs that end just before it, in it and after it.
pub static BEFORE_AT_AND_AFTER_DRY: [Step; 19] = [
    Step::Add(0, 4, Ok(4)),
    Step::Add(1, 6, Ok(17)),
    Step::Run(4, Ok(())),
    Step::Cursor(4),
    Step::Owed(0, Ok(1)),
    Step::Owed(1, Ok(5)),
    Step::Run(1, Ok(())),
    Step::Cursor(5),
    Step::Owed(0, Ok(0)),
    Step::Owed(1, Ok(5)),
    Step::Run(1, Ok(())),
    Step::Cursor(6),
    Step::Owed(0, Ok(0)),
    Step::Owed(1, Ok(4)),
    Step::Run(4, Ok(())),
    Step::Owed(1, Ok(0)),
    Step::Run(1, Ok(())),
    Step::Cursor(18),
    Step::Owed(1, Ok(0)),
];

// Sessions run dry within a run.
pub static DRY_WITHIN_ONE_RUN: [Step; 16] = [
    Step::Add(0, 2, Ok(6)),
    Step::Add(1, 6, Ok(14)),
    Step::Add(2, 20, Ok(40)),
    Step::Run(12, Ok(())),
    Step::Cursor(12),
    Step::Owed(0, Ok(0)),
    Step::Owed(1, Ok(2)),
    Step::Owed(2, Ok(14)),
    Step::Run(7, Ok(())),
    Step::Cursor(23),
    Step::Owed(0, Ok(0)),
    Step::Owed(1, Ok(0)),
    Step::Owed(2, Ok(9)),
    Step::Run(9, Ok(())),
    Step::Cursor(41),
    Step::Owed(2, Ok(0)),
];

// Sixty-four sessions, session i with weight i + 1.
pub static SIXTY_FOUR_SESSIONS: [Step; 18] = [
    Step::Add(0, 3, Ok(4160)),
    Step::Add(31, 34, Ok(2577)),
    Step::Add(63, 66, Ok(4097)),
    Step::Run(5, Ok(())),
    Step::Cursor(500),
    Step::Owed(31, Ok(30)),
    Step::Owed(63, Ok(66)),
    Step::Add(0, 1, Ok(6240)),
    Step::Run(1000, Ok(())),
    Step::Cursor(6241),
    Step::Add(63, 64, Ok(8319)),
    Step::Owed(63, Ok(64)),
    Step::Run(63, Ok(())),
    Step::Cursor(8319),
    Step::Owed(63, Ok(1)),
    Step::Run(1, Ok(())),
    Step::Cursor(8320),
    Step::Add(64, 1, Err(ClockRefusal::UnknownSession)),
];
