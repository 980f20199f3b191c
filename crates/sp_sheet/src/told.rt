use crate::fault::Fault;

/// What of a run's journal stands behind the output.
#[derive(Clone, Copy, Drop)]
pub enum Told {
    Nothing,
    /// How often each kind of step stands in it.
    Counts,
    /// The versions that were made and leased before a piece came back.
    Beginning,
}

/// What a word says of a journal.
pub(crate) fn told_by(word: &str) -> Result<Told, Fault> {
    Ok(match word {
        "counts" => Told::Counts,
        "beginning" => Told::Beginning,
        _ => return Err(Fault("nothing of a journal")),
    })
}
