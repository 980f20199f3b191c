use crate::call::{Call, Failing, Outcome};
use crate::delayed::Delayed;
use crate::escapes::NamedNumber;
use crate::told::Told;
use std::alloc::Global;

/// A worked row: what it shows, a call, and what is to come of it.
#[derive(Drop)]
pub struct Row {
    pub(crate) name: String,
    /// The number that it is run for, where it is one of many.
    pub(crate) number: Option<NamedNumber>,
    pub(crate) call: Call,
    pub(crate) expected: Outcome,
    /// Whether the output is to be that of `plain` with the same query over the same input.
    pub(crate) is_as_plain: bool,
}

impl Row {
    /// A row of no words over no bytes, of which nothing is to come.
    pub(crate) fn new(alloc: Global, name: String) -> Row {
        Row {
            name,
            number: None,
            call: Call {
                single: String::new(alloc),
                words: Vec::new(alloc),
                input: Vec::new(alloc),
                piece: 4096,
                files: Vec::new(alloc),
                failing: Failing {
                    reads: None,
                    loads: Vec::new(alloc),
                    writes: Vec::new(alloc),
                    tells: Vec::new(alloc),
                },
                delayed: Delayed::None,
                counts_predictors: false,
                told: Told::Nothing,
                tells_left: false,
            },
            expected: Outcome {
                status: 0,
                output: Vec::new(alloc),
                error: Vec::new(alloc),
                left: Vec::new(alloc),
            },
            is_as_plain: false,
        }
    }
}
