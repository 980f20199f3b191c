/// Where a row lies among the bytes left: how many of the first are its own, with the carriage return
/// that may end it, and how many line feeds behind them end it, one or none.
#[derive(Clone, Copy, Drop)]
pub struct Span {
    pub size: usize,
    pub feeds: usize,
}
