// The text of an answer.
use std::alloc::{AllocError, Global};
use std::fmt::Write;

/// A text that is written piece by piece. Where there was no memory for a piece, there is no text at the
/// end: the pieces are written without a look at each.
#[derive(Drop)]
pub(crate) struct AnswerText {
    text: String,
    is_whole: bool,
}

impl AnswerText {
    /// The empty text.
    pub(crate) fn new(alloc: Global) -> AnswerText {
        AnswerText {
            text: String::new(alloc),
            is_whole: true,
        }
    }

    /// Appends a text.
    pub(crate) fn text(&mut self, text: &str) {
        self.is_whole &= self.text.push_str(text).is_ok();
    }

    /// Appends a text and a number.
    pub(crate) fn number(&mut self, text: &str, number: i128) {
        self.is_whole &= write!(self.text, "{text}{number}").is_ok();
    }

    /// Appends a text and a number, which ends the line.
    pub(crate) fn last(&mut self, text: &str, number: u64) {
        self.number(text, i128::from(number));
        self.text("\n");
    }

    /// Appends a text and a list of numbers.
    pub(crate) fn list(&mut self, text: &str, numbers: &[u32]) {
        self.is_whole &= write!(self.text, "{text}{numbers:?}").is_ok();
    }

    /// Appends numbers with commas between them, or a dash.
    pub(crate) fn commas(&mut self, numbers: &[u32]) {
        if numbers.is_empty() {
            self.text("-");
        }
        let mut before = "";
        for number in numbers {
            self.number(before, i128::from(*number));
            before = ",";
        }
    }

    /// Appends a text that was made, if there was memory for it.
    pub(crate) fn made(&mut self, text: Result<String, AllocError>) {
        match text {
            Ok(text) => self.text(text.as_str()),
            Err(_) => self.is_whole = false,
        }
    }

    /// The whole text.
    pub(crate) fn into_text(self) -> Result<String, AllocError> {
        if self.is_whole {
            Ok(self.text)
        } else {
            Err(AllocError)
        }
    }
}
