/// What stands round each job that is done. It answers nothing and can only delay.
pub trait Gate: Sync {
    /// The job of this ticket is about to be done at the seat of this number.
    fn enter(&self, seat: u32, ticket: u64);

    /// It was done.
    fn leave(&self, seat: u32, ticket: u64);
}

/// Does nothing.
pub struct OpenGate;

impl Gate for OpenGate {
    fn enter(&self, _seat: u32, _ticket: u64) {}

    fn leave(&self, _seat: u32, _ticket: u64) {}
}
