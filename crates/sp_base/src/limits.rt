//! The limits of the program, and the two numbers that its predictors count by. Contracts cite them as
//! `specs/Limits` has them, under the same names in small letters.
ghost use Rattle.std.specs.Prelude.{◌≡◌};
ghost use Rattle.sp_base.specs.Limits.{event_limit, number_limit, row_limit, piece_limit, query_limit, schedule_limit, length_limit, step_limit, live_limit, batch_limit, rotate_limit, whole_share, renewal};

/// Events: the most of an input, of a machine and of a drill. An input is stopped at the row of one more, a
/// machine refuses to be fed it, and a drill of more is no command.
pub const EVENT_LIMIT: u32 = 1_048_576;

/// The greatest number that a query may write or an event hold, in the units of its decimals, and the last
/// time. A query's text with a greater one has a fault, and so has a row.
pub const NUMBER_LIMIT: u64 = 1_000_000_000_000_000;

/// Bytes: the longest row without what ends it. A longer one stops the input.
pub const ROW_LIMIT: usize = 65_536;

/// Bytes: the most that a source is asked for at a time.
pub const PIECE_LIMIT: usize = 4_096;

/// Bytes: the longest text of a query, or file with one. A longer one isn't read.
pub const QUERY_LIMIT: u32 = 16_384;

/// Bytes: the longest file with a schedule. A longer one isn't read.
pub const SCHEDULE_LIMIT: u32 = 1_048_576;

/// Events: the longest window. A query that asks for a longer one has a fault.
pub const LENGTH_LIMIT: u64 = 65_536;

/// Events: the greatest step between windows. A query that asks for a greater one has a fault.
pub const STEP_LIMIT: u64 = 1_048_576;

/// Versions: the most that may live at a time, as an option says. A greater bound is no command.
pub const LIVE_LIMIT: u32 = 4_096;

/// Events: the most that are fed or lent at a time, as an option or a line of a schedule says. A greater
/// number is no command, and a bad line.
pub const BATCH_LIMIT: u32 = 1_024;

/// Windows: the most that are finished before the next predictor takes its place, as an option says. A greater
/// number is no command.
pub const ROTATE_LIMIT: u32 = 65_536;

/// The whole of a share, in parts: a share counts 65,536ths.
pub const WHOLE_SHARE: u32 = 65_536;

/// Pairs: a predictor that learns builds its matrices anew at each so many.
pub const RENEWAL: u32 = 1_024;

/// Law: each constant is the number of its definition.
pub fn limits_are_defined()
    ensures events { EVENT_LIMIT ≡ event_limit }
    ensures numbers { NUMBER_LIMIT ≡ number_limit }
    ensures rows { ROW_LIMIT ≡ row_limit }
    ensures pieces { PIECE_LIMIT ≡ piece_limit }
    ensures queries { QUERY_LIMIT ≡ query_limit }
    ensures schedules { SCHEDULE_LIMIT ≡ schedule_limit }
    ensures lengths { LENGTH_LIMIT ≡ length_limit }
    ensures steps { STEP_LIMIT ≡ step_limit }
    ensures live { LIVE_LIMIT ≡ live_limit }
    ensures batches { BATCH_LIMIT ≡ batch_limit }
    ensures rotations { ROTATE_LIMIT ≡ rotate_limit }
    ensures shares { WHOLE_SHARE ≡ whole_share }
    ensures renewals { RENEWAL ≡ renewal }
{}
