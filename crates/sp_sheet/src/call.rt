use crate::delayed::Delayed;
use crate::told::Told;
use std::alloc::{AllocError, Global};

/// What a call leaves when it ends.
#[derive(Drop, PartialEq)]
pub struct Outcome {
    pub status: u32,
    pub output: Vec<u8>,
    pub error: Vec<u8>,
    /// What the input has left, where the row says it.
    pub left: Vec<u8>,
}

/// Which calls of the objects in memory fail; a call's number counts from 1.
#[derive(Clone, Drop)]
pub struct Failing {
    /// The input fails behind so many bytes.
    pub reads: Option<u64>,
    /// Calls for a file.
    pub loads: Vec<u32>,
    /// Calls of the output, each of which keeps so many bytes.
    pub writes: Vec<(u32, u32)>,
    /// The same of the error output.
    pub tells: Vec<(u32, u32)>,
}

/// Words and the objects in memory that they are run over.
#[derive(Clone, Drop)]
pub struct Call {
    /// The name of a single call in place of the whole program, and empty for that.
    pub single: String,
    pub words: Vec<String>,
    pub input: Vec<u8>,
    /// The most bytes that a call of the input gives; 0 counts as 1.
    pub piece: u32,
    /// Files with their names.
    pub files: Vec<(String, Vec<u8>)>,
    pub failing: Failing,
    /// Which of a run's jobs are delayed or held.
    pub delayed: Delayed,
    /// Whether a run may choose among three predictors that count, and not among the usual ones.
    pub counts_predictors: bool,
    /// What of a run's journal stands behind the output.
    pub told: Told,
    /// Whether the row says what the input has left.
    pub tells_left: bool,
}

// The option that says how many instances a run has.
const INSTANCES: &str = "--instances";

// Whether the words are a run or a drill, and name no number of instances.
fn leave_instances(words: &[String]) -> bool {
    match words {
        [first, ..] if matches!(first.as_str(), "run" | "drill") => {
            !words.iter().any(|word| word.as_str() == INSTANCES)
        }
        _ => false,
    }
}

// Puts a word behind the others.
fn push_word(alloc: Global, word: &str, words: &mut Vec<String>) -> Result<(), AllocError> {
    words.push(String::from_str(alloc, word)?)?;
    Ok(())
}

impl Call {
    /// Whether it is a run or a drill of the whole program whose words name no number of instances.
    pub(crate) fn leaves_instances(&self) -> bool {
        self.single.is_empty() && leave_instances(&self.words)
    }

    /// The same with the two words that ask for no instance behind the others.
    pub(crate) fn alone(&self, alloc: Global) -> Result<Call, AllocError> {
        let mut alone = self.clone()?;
        push_word(alloc, INSTANCES, &mut alone.words)?;
        push_word(alloc, "0", &mut alone.words)?;
        Ok(alone)
    }

    /// The command `plain` with the same query, which is a word, over the same input, with nothing told but the lines.
    pub(crate) fn as_plain(&self, alloc: Global) -> Result<Call, AllocError> {
        let mut plain = self.clone()?;
        plain.delayed = Delayed::None;
        plain.counts_predictors = false;
        plain.words.truncate(3);
        if let Some(first) = plain.words.first_mut() {
            *first = String::from_str(alloc, "plain")?;
        }
        Ok(plain)
    }
}
