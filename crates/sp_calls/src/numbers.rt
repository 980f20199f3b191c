// Numbers in rising order, and shares of a whole.
use crate::given::number;
use crate::text::AnswerText;
use sp_base::{Numbers, Share};
use std::alloc::{AllocError, Global};

// The numbers that a text lists, taken in one after another.
fn listed(alloc: Global, text: &str) -> Result<Numbers, AllocError> {
    let mut numbers = Numbers::new(alloc);
    for part in text.split(',') {
        numbers.insert(number(part))?;
    }
    Ok(numbers)
}

// Takes in the numbers that a text lists.
fn unite(alloc: Global, numbers: &mut Numbers, text: &str) -> Result<(), AllocError> {
    let others = listed(alloc, text)?;
    let united = numbers.union(alloc, &others);
    drop(others);
    united
}

// Those from the first number of a text on, and below that and the second one together.
fn cut(alloc: Global, numbers: &Numbers, text: &str) -> Result<Numbers, AllocError> {
    match text.split_once('+') {
        Some((first, count)) => numbers.cut_to(alloc, number(first), number(count)),
        None => numbers.cut_to(alloc, number(text), 0),
    }
}

// Makes room for one number and puts it there.
fn put(numbers: &mut Numbers, one: u32) -> Result<bool, AllocError> {
    numbers.reserve(1)?;
    Ok(numbers.put(one))
}

// Puts new numbers in the place of these.
fn replace(by: Result<Numbers, AllocError>, numbers: &mut Numbers) -> Result<(), AllocError> {
    *numbers = by?;
    Ok(())
}

// What a call answers that is to say whether something is so.
fn told(is_so: bool) -> &'static str {
    if is_so { " true" } else { " false" }
}

// Does what a word says, and tells what the call answered, if it answers.
fn step(
    alloc: Global,
    numbers: &mut Numbers,
    what: &str,
    text: &str,
) -> Result<&'static str, AllocError> {
    match what {
        "insert" => Ok(told(numbers.insert(number(text))?)),
        "put" => Ok(told(put(numbers, number(text))?)),
        "has" => Ok(told(numbers.has(number(text)))),
        "pop" => Ok(if numbers.pop().is_some() { " true" } else { "" }),
        _ => {
            change(alloc, numbers, what, text)?;
            Ok("")
        }
    }
}

// The same of the calls that answer nothing.
fn change(alloc: Global, numbers: &mut Numbers, what: &str, text: &str) -> Result<(), AllocError> {
    match what {
        "union" => unite(alloc, numbers, text),
        "reserve" => numbers.reserve(number(text)),
        "cut" => replace(cut(alloc, numbers, text), numbers),
        "copy" => replace(numbers.copy(alloc), numbers),
        _ => {
            numbers.clear();
            Ok(())
        }
    }
}

// Does what a word says, as `insert:3`, and appends the numbers behind the answer.
fn push_step(
    alloc: Global,
    numbers: &mut Numbers,
    word: &str,
    out: &mut AnswerText,
) -> Result<(), AllocError> {
    let told = match word.split_once(':') {
        Some((what, text)) => step(alloc, numbers, what, text)?,
        None => step(alloc, numbers, word, "")?,
    };
    out.text(word);
    out.text(told);
    out.list(": ", numbers.list());
    out.text("\n");
    Ok(())
}

/// Does what the words say, beginning with no number, and appends a line for each.
pub(crate) fn numbers(
    alloc: Global,
    words: &[String],
    out: &mut AnswerText,
) -> Result<(), AllocError> {
    let mut numbers = Numbers::new(alloc);
    for word in words {
        push_step(alloc, &mut numbers, word.as_str(), out)?;
    }
    Ok(())
}

// Appends both shares, the product, and what is missing to a whole.
fn push_shares(one: Share, two: Share, out: &mut AnswerText) {
    let product = one.times(two);
    out.number("", one.get() as i128);
    out.number(" ", two.get() as i128);
    out.number(" ", product.get() as i128);
    out.number(" ", product.rest().get() as i128);
    out.text("\n");
}

/// Appends for each pair of words their shares, the product, and what is missing to a whole.
pub(crate) fn shares(words: &[String], out: &mut AnswerText) {
    for pair in words.chunks(2) {
        if let [one, two] = pair {
            let one = Share::new(number(one.as_str()));
            let two = Share::new(number(two.as_str()));
            push_shares(one, two, out);
        }
    }
}
