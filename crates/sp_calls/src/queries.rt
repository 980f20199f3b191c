// Texts of queries, as they are printed and compared.
ghost use Rattle.std.specs.Prelude.{List, ℕ};
ghost use Rattle.sp_query.specs.Queries.{IsQuery};

use crate::given::{LONGEST, query_of};
use crate::text::AnswerText;
use sp_compile::compile;
use sp_parse::parse;
use sp_syntax::{Query, print};
use std::alloc::Global;

// Appends the code and the place of a fault.
fn push_fault(code: u8, place: u32, out: &mut AnswerText) {
    out.number("", code as i128);
    out.number(" at ", place as i128);
}

// Appends a query as it is printed, or its fault.
fn push_query(alloc: Global, query: &Query, out: &mut AnswerText)
    requires { (text : List ℕ) × IsQuery text query.now }
{
    match compile(alloc, query).err() {
        Some(fault) => push_fault(fault.code(), fault.place(), out),
        None => out.made(print(alloc, query)),
    }
}

// Appends what a text comes to.
fn push_printed(alloc: Global, text: &str, out: &mut AnswerText) {
    if text.len() > LONGEST {
        return;
    }
    match parse(alloc, text) {
        Ok(query) => {
            push_query(alloc, &query, out);
            drop(query);
        }
        Err(fault) => push_fault(fault.code(), fault.place(), out),
    }
    out.text("\n");
}

/// Appends for each word the query as it is printed, or the code and the place of its fault.
pub(crate) fn printed(alloc: Global, words: &[String], out: &mut AnswerText) {
    for word in words {
        push_printed(alloc, word.as_str(), out);
    }
}

// Whether two queries are the same, whichever is asked of the other.
fn same_queries(one: &Query, two: &Query) -> &'static str {
    match (one.same(two), two.same(one)) {
        (true, true) => "same\n",
        (false, false) => "not the same\n",
        _ => "the same one way alone\n",
    }
}

// Whether both are queries, and the same.
fn same_text(one: &Option<Query>, two: &Option<Query>) -> &'static str {
    match (one, two) {
        (Some(one), Some(two)) => same_queries(one, two),
        (None, _) => "no first query\n",
        (_, None) => "no second query\n",
    }
}

/// Appends whether the queries of the first two words are the same.
pub(crate) fn same(alloc: Global, words: &[String], out: &mut AnswerText) {
    let one = query_of(alloc, words, 0);
    let two = query_of(alloc, words, 1);
    let text = same_text(&one, &two);
    drop(one);
    drop(two);
    out.text(text);
}
