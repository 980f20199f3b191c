// Predictors: what they learn, and what they answer.
use crate::given::{number, two_numbers};
use crate::text::AnswerText;
use sp_chance::{Even, Markov, Predictor, Steady};
use std::alloc::{AllocError, Global};

// Tells a predictor each of these pairs once, as `3,2/2,1`.
fn learn_pairs<P: Predictor>(predictor: &mut P, pairs: &str) {
    for pair in pairs.split('/') {
        let (from, to) = two_numbers(pair);
        predictor.learn(from, to);
    }
}

// The same so many times over, where a star and a number stand behind the pairs.
fn learn<P: Predictor>(predictor: &mut P, text: &str) {
    let (pairs, times) = match text.split_once('*') {
        Some((pairs, times)) => (pairs, number(times)),
        None => (text, 1),
    };
    for _ in 0..times {
        learn_pairs(predictor, pairs);
    }
}

// Does what a word says, as `learn:3,2*10`, or asks for a chance, as `1,16`.
fn step<P: Predictor>(predictor: &mut P, word: &str, out: &mut AnswerText) {
    match word.split_once(':') {
        Some((_, pairs)) => learn(predictor, pairs),
        None => {
            let (left, events) = two_numbers(word);
            out.text(word);
            out.last(" ", u64::from(predictor.chance(left, events)));
        }
    }
}

// Appends a predictor's name, and then the chances that the words ask for.
fn steps<P: Predictor>(predictor: &mut P, words: &[String], out: &mut AnswerText) {
    out.text("name ");
    out.text(predictor.name());
    out.text("\n");
    for word in words {
        step(predictor, word.as_str(), out);
    }
}

// The same of the predictor that learns.
fn learned(alloc: Global, words: &[String], out: &mut AnswerText) -> Result<(), AllocError> {
    let mut markov = Markov::new(alloc)?;
    steps(&mut markov, words, out);
    drop(markov);
    Ok(())
}

/// Appends the name of the predictor that the first word says, `even`, `steady:SHARE` or `markov`, and then
/// the chances that the other words ask for, which may have it learn between.
pub(crate) fn predict(
    alloc: Global,
    words: &[String],
    out: &mut AnswerText,
) -> Result<(), AllocError> {
    let [predictor, words @ ..] = words else {
        return Ok(());
    };
    match predictor.as_str().split_once(':') {
        Some((_, share)) => Ok(steps(&mut Steady::new(number(share)), words, out)),
        None if predictor.as_str() == "even" => Ok(steps(&mut Even::new(), words, out)),
        None => learned(alloc, words, out),
    }
}
