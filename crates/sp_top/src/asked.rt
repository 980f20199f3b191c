// What the words ask of a run and of a graph.
use sp_cli::Speed;
use sp_commands::{Graph, Lateness};
use sp_load::Place;

/// How a run works, and how late its events may come.
#[derive(Clone, Copy, Drop)]
pub(crate) struct Manner<'a> {
    pub(crate) speed: &'a Speed,
    pub(crate) late: Lateness,
}

/// A run that the words ask for.
#[derive(Clone, Copy, Drop)]
pub(crate) struct Run<'a> {
    /// Where the query stands.
    pub(crate) place: Place<'a>,
    pub(crate) manner: Manner<'a>,
    /// How many trees it has, 1 to 16.
    pub(crate) trees: u32,
    /// Whether it lists the proofs of its windows, in place of its lines.
    pub(crate) proof: bool,
}

/// A graph that the words ask for.
#[derive(Clone, Copy, Drop)]
pub(crate) struct GraphRun<'a> {
    pub(crate) texts: Graph<'a>,
    pub(crate) speed: &'a Speed,
}
