use crate::fault::Fault;

/// Which of a run's jobs are delayed, or held until two are inside at once.
#[derive(Clone, Copy, Drop)]
pub enum Delayed {
    None,
    /// The first one that was leased.
    First,
    /// Those that are done at the seat of this number.
    AtSeat(u32),
    /// Every second one.
    Odd,
    /// Each of them, for a little while, and behind it once more.
    Each,
    /// Held at its end until two of these are inside.
    Met(Pair),
}

/// Of whose jobs two are to be inside at once.
#[derive(Clone, Copy, Drop)]
pub enum Pair {
    /// Of two seats, whichever they are.
    Seats,
    /// Of two instances. The splitter's own seat waits for them, so that it doesn't do all by itself.
    Instances,
    /// The first ones of two trees.
    Trees,
}

/// The jobs that a word says.
pub(crate) fn delayed_by(word: &str) -> Result<Delayed, Fault> {
    Ok(match word {
        "open" => Delayed::None,
        "first" => Delayed::First,
        "seat0" => Delayed::AtSeat(0),
        "seat1" => Delayed::AtSeat(1),
        "odd" => Delayed::Odd,
        "each" => Delayed::Each,
        "seats" => Delayed::Met(Pair::Seats),
        "instances" => Delayed::Met(Pair::Instances),
        "trees" => Delayed::Met(Pair::Trees),
        _ => return Err(Fault("no such gate")),
    })
}
