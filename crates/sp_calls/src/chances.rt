// Chances of runs, which are set and asked for.
use crate::given::{number, two_numbers};
use crate::text::AnswerText;
use sp_base::Share;
use sp_chance::Chances;
use std::alloc::{AllocError, Global};

// Sets a share, as `1,2=300` for version 1 and run 2, or asks for it, as `1,2`.
fn step(chances: &mut Chances, word: &str, out: &mut AnswerText) -> Result<(), AllocError> {
    match word.split_once('=') {
        Some((place, share)) => {
            let (version, run) = two_numbers(place);
            chances.set(u64::from(version), run, Share::new(number(share)))
        }
        None => {
            let (version, run) = two_numbers(word);
            let share = chances.get(u64::from(version), run);
            out.text(word);
            Ok(out.last(" ", u64::from(share.get())))
        }
    }
}

// Does what the words say, one after the other.
fn steps(chances: &mut Chances, words: &[String], out: &mut AnswerText) -> Result<(), AllocError> {
    for word in words {
        step(chances, word.as_str(), out)?;
    }
    Ok(())
}

/// Sets what the words set, beginning with no share, and appends what they ask for.
pub(crate) fn chances(
    alloc: Global,
    words: &[String],
    out: &mut AnswerText,
) -> Result<(), AllocError> {
    let mut chances = Chances::new(alloc);
    let stepped = steps(&mut chances, words, out);
    drop(chances);
    stepped
}
