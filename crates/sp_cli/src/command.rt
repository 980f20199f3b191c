// What the words of a command line ask for, or why they ask for nothing.
ghost use Rattle.std.specs.Prelude.{◌≡◌};

use sp_slack::LateRule;
use std::alloc::AllocError;

/// Where a query stands: in a text, or in the file of this name.
#[derive(Debug, Drop, PartialEq)]
pub enum QuerySource {
    Text(String),
    File(String),
}

/// How a run works.
#[derive(Debug, Drop, PartialEq)]
pub struct Speed {
    /// How many instances read, each on a thread of its own: 0 to 16.
    pub instances: u32,
    /// The most versions that may be live at a time: 1 to 4096.
    pub live: u32,
    /// The most events that are fed or lent at a time: 1 to 1024.
    pub batch: u32,
    /// The name of the predictor that works first.
    pub predictor: String,
    /// Behind how many finished windows the next predictor takes the place of the one at work: 0 to 65,536;
    /// 0: never.
    pub rotate: u32,
}

/// What the words ask for.
#[derive(Debug, Drop, PartialEq)]
pub enum Command {
    /// A query over the input, by the speculative engine. An event may come behind the greatest time before it, by
    /// the slack, 0 to 1,000,000,000,000,000; the rule says what becomes of one that comes later. Parts of the
    /// input that share no event are driven in so many trees, 1 to 16; with more than one, no predictor takes
    /// another's place. Where proofs are asked for, the listing of its windows is written in place of its lines.
    Run {
        query: QuerySource,
        speed: Speed,
        slack: i64,
        late: LateRule,
        trees: u32,
        proof: bool,
    },
    /// The same window by window.
    Plain {
        query: QuerySource,
        slack: i64,
        late: LateRule,
    },
    /// The machine over the schedule in the file of this name, with so many live versions at most: 1 to 4096.
    Trace {
        query: QuerySource,
        schedule: String,
        live: u32,
    },
    /// A run over so many generated events, 1 to 1,048,576, from this seed.
    Drill {
        events: u32,
        seed: u32,
        speed: Speed,
    },
    /// A listing, in the file of this name, held against the query over the input.
    Check {
        query: QuerySource,
        list: String,
    },
    /// A run of the second query, in the text `then`, over what the matches of the first return: an event each, as
    /// the text `returns` says.
    Graph {
        query: QuerySource,
        then: String,
        returns: String,
        speed: Speed,
    },
}

/// Why no command was read.
#[derive(Clone, Copy, Debug, Drop, PartialEq)]
pub enum UsageFault {
    /// The words are no command.
    Usage,
    /// Want of memory.
    Memory,
}

impl From<AllocError> for UsageFault {
    ghost use Rattle.sp_cli.specs.declared.command.UsageFault.TheVariants.{Memory};

    ghost from_gives = { λ _ e. e ≡ Memory };

    fn from(_: AllocError) -> UsageFault {
        UsageFault::Memory
    }
}
