// What an expression is: a text, or a number of some scale.

/// A text, or a number with so many decimals whose units pass no bound in magnitude.
#[derive(Clone, Copy, Drop)]
pub enum Sort {
    Text,
    Number { scale: u8, bound: u128 },
}
