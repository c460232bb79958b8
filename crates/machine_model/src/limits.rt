// The limits of the machine. Its definitions, and the clauses and the code above, name them from here.

/// The greatest moment, in milliseconds since 1970.
pub const GREATEST_MOMENT: u64 = 9_000_000_000_000;

/// How far the clock may go in one step, in milliseconds: a week.
pub const GREATEST_JUMP: u64 = 604_800_000;

/// The greatest moment that a request can write, in milliseconds since 1970.
pub const FAR: u64 = 9_999_999_999_999;

/// The most seconds that a stop waits.
pub const MOST_SECONDS: i64 = 2_147_483;

/// A second, in milliseconds.
pub const SECOND: u64 = 1_000;

/// How long a removal with force waits for a process to end, in milliseconds.
pub const REMOVAL_TIME: u64 = 10_000;

/// The number of steps at which no more are made but takes and drops.
pub const MOST_STEPS: u64 = 1 << 56;

/// The greatest payload of a frame, in bytes.
pub const FRAME_BYTES: usize = 32_768;

/// How many bytes the processes of a container may write over its life.
pub const CONTAINER_BYTES: u64 = 4_194_304;

/// How many bytes the process of an exec may write.
pub const EXEC_BYTES: u64 = 1_048_576;

/// How many bytes of input may wait for a process.
pub const INPUT_BYTES: u64 = 1_048_576;

/// How many mounts a container has at most.
pub const MOST_MOUNTS: usize = 16;

/// Of how many events, the last ones, the moments are kept.
pub const KEPT_EVENTS: usize = 65_536;

/// Of how many removed containers, the last ones, the logs are kept.
pub const KEPT_REMOVALS: usize = 64;
