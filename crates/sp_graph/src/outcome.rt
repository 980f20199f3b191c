ghost use Rattle.std.specs.Prelude.{◌≡◌, ◌≤◌, [], fold, pos, length, map, string_bytes, unsigned_abs, IfOk, OnOk};
ghost use Rattle.std.specs.List.{All};
ghost use Rattle.sp_base.specs.Limits.{event_limit};
ghost use Rattle.sp_plan.specs.Bounds.{IsSmall, AllSmall, StaysWithin};
ghost use Rattle.sp_plan.specs.Events.{AllFit, NeverGoesBack};
ghost use Rattle.sp_plan.specs.Texts.{with_text};
ghost use Rattle.sp_graph.specs.Derived.{derived, given, nothing, text_at, value_of};
ghost use Rattle.sp_graph.specs.Answers.{IsDerived, IsMade, IsPlaced, events_in};
ghost use Rattle.sp_graph.specs.Tables.{IsTable};

use crate::bind::bind_last;
use crate::table::Table;
use sp_base::limits::{EVENT_LIMIT, NUMBER_LIMIT};
use sp_plan::{Bound, Event, Expr, Kind, Match, Memory, Plan, Value, Values, value};
use std::alloc::Global;

/// The events that the matches of a query give.
#[derive(Drop)]
pub enum Derived {
    /// Those of all matches.
    All(Vec<Event>),
    /// Those of the matches before the first one that passes a limit, and that limit: 1,000,000,000,000,000
    /// where it has a number past that in magnitude, and otherwise 1,048,576, where so many events are there.
    UpTo { events: Vec<Event>, limit: u64 },
}

// What gives the event of a match: the events of the first input and its texts by their numbers, the second
// query, and an expression for each of its columns.
#[derive(Drop)]
struct Layout<'a> {
    events: &'a [Event],
    texts: &'a [String],
    second: &'a Plan,
    returns: &'a [Expr],
}

// The place of the text that has this number. A number that none has is a place behind all.
fn place_of(texts: &[String], number: u128) -> usize
    ensures { text_at (map string_bytes texts.now) result
        ≡ text_at (map string_bytes texts.now) number }
{
    usize::try_from(number).unwrap_or(texts.len())
}

// The value of a column of this kind whose expression comes to this; None where it is a number past its limit.
fn place_value(
    alloc: Global,
    texts: &[String],
    kind: Kind,
    number: i128,
    table: &mut Table,
) -> Result<Option<Value>, Memory>
    requires { IsTable (map string_bytes texts.now) table.old }
    ensures value { IfOk result (λ own. IsPlaced (map string_bytes texts.now)
        table.old.known (value_of kind number) own table.new.known) }
    ensures table { OnOk result (IsTable (map string_bytes texts.now) table.new) }
{
    match kind {
        Kind::Text => {
            let place = place_of(texts, number.unsigned_abs());
            let symbol = table.number(alloc, texts, place)?;
            Ok(Some(Value::Symbol(symbol)))
        }
        Kind::Int | Kind::Dec(_) => match i64::try_from(number) {
            Ok(own) if own.unsigned_abs() <= NUMBER_LIMIT => Ok(Some(Value::Number(own))),
            _ => Ok(None),
        },
    }
}

// The event of a match that binds these events; None where one of its numbers is past its limit.
fn event_of(
    alloc: Global,
    layout: &Layout<'_>,
    none: &Event,
    bound: &Bound,
    table: &mut Table,
) -> Result<Option<Event>, Memory>
    requires count { length layout.now.returns.now ≡ length layout.now.second.now.schema.columns }
    requires within { All StaysWithin layout.now.returns.now }
    requires none { none.now ≡ nothing }
    requires small { AllSmall bound.now }
    requires table { IsTable (map string_bytes layout.now.texts.now) table.old }
    ensures event { IfOk result (λ event. IsMade (map string_bytes layout.now.texts.now)
        table.old.known
        (given layout.now.second.now.schema.columns layout.now.returns.now bound.now)
        event table.new.known) }
    ensures table { OnOk result (IsTable (map string_bytes layout.now.texts.now) table.new) }
{
    let columns = layout.second.schema.columns.as_slice();
    let mut values = Values::with_capacity(alloc, columns.len())?;
    for (place, column) in columns.iter().enumerate() {
        let number = value(&layout.returns[place], none, bound);
        let Some(own) = place_value(alloc, layout.texts, column.kind, number, table)? else {
            return Ok(None);
        };
        values.push(own)?;
    }
    Ok(Some(Event { time: 0, values }))
}

// What goes from match to match beside the events: the texts of the second input, and what is made once.
#[derive(Drop)]
struct Carried {
    table: Table,
    // what the match at hand binds
    bound: Bound,
    // stands for the event at hand, of which there is none
    none: Event,
}

impl Carried {
    // No match was taken.
    fn new(alloc: Global, layout: &Layout<'_>) -> Result<Carried, Memory>
        ensures known { IfOk result
            (λ carried. carried.table.known ≡ fold with_text [] layout.now.second.now.texts) }
        ensures table { IfOk result
            (λ carried. IsTable (map string_bytes layout.now.texts.now) carried.table) }
        ensures none { IfOk result (λ carried. carried.none ≡ nothing) }
    {
        let second = layout.second.texts.as_slice();
        Ok(Carried {
            table: Table::new(alloc, layout.texts.len(), second)?,
            bound: Bound::new(alloc),
            none: Event {
                time: 0,
                values: Values::with_capacity(alloc, 0)?,
            },
        })
    }
}

// Adds the events of these matches, the first ones, up to one that passes a limit, which is told then.
fn take_matches(
    alloc: Global,
    layout: &Layout<'_>,
    matches: &[Match],
    carried: &mut Carried,
    own: &mut Vec<Event>,
) -> Result<Option<u64>, Memory>
    requires count { length layout.now.returns.now ≡ length layout.now.second.now.schema.columns }
    requires within { All StaysWithin layout.now.returns.now }
    requires small { All IsSmall layout.now.events.now }
    requires known { carried.old.table.known ≡ fold with_text [] layout.now.second.now.texts }
    requires table { IsTable (map string_bytes layout.now.texts.now) carried.old.table }
    requires none { carried.old.none ≡ nothing }
    requires first { own.old.items ≡ [] }
    ensures limit { IfOk result (λ limit. limit
        ≡ (derived layout.now.returns.now layout.now.events.now
        (map string_bytes layout.now.texts.now) layout.now.second.now matches.now).limit) }
    ensures events { OnOk result (own.new.items
        ≡ (derived layout.now.returns.now layout.now.events.now
        (map string_bytes layout.now.texts.now) layout.now.second.now matches.now).events) }
{
    for found in matches {
        bind_last(alloc, layout.events, found, &mut carried.bound)?;
        let table = &mut carried.table;
        let Some(event) = event_of(alloc, layout, &carried.none, &carried.bound, table)? else {
            return Ok(Some(NUMBER_LIMIT));
        };
        if own.len() == EVENT_LIMIT as usize {
            return Ok(Some(u64::from(EVENT_LIMIT)));
        }
        own.push(event)?;
    }
    Ok(None)
}

/// The events that the matches of one query give to a second, one a match, at time 0: for each column of the
/// second what its expression comes to over the events that the match binds, of each name the last. Texts have
/// their numbers by the texts of the second query first, and then in order of appearance; `texts` lists those
/// of the first input by their numbers. No match counts from the first one on that passes a limit.
pub fn derive(
    alloc: Global,
    returns: &[Expr],
    events: &[Event],
    matches: &[Match],
    texts: &[String],
    second: &Plan,
) -> Result<Derived, Memory>
    requires count { length returns.now ≡ length second.now.schema.columns }
    requires within { All StaysWithin returns.now }
    requires small { All IsSmall events.now }
    ensures derived { IfOk result (IsDerived (derived returns.now events.now
        (map string_bytes texts.now) second.now matches.now)) }
    ensures fit { IfOk result (λ own. AllFit second.now (events_in own)) }
    ensures count { IfOk result (λ own. length (events_in own) ≤ event_limit) }
    ensures times { IfOk result (λ own. All (λ e. e.time ≡ pos 0) (events_in own)) }
    ensures order { IfOk result (λ own. NeverGoesBack (events_in own)) }
{
    let layout = Layout {
        events,
        texts,
        second,
        returns,
    };
    let mut own = Vec::with_capacity(alloc, matches.len().min(EVENT_LIMIT as usize))?;
    let passed = {
        let mut carried = Carried::new(alloc, &layout)?;
        take_matches(alloc, &layout, matches, &mut carried, &mut own)
    };
    match passed? {
        Some(limit) => Ok(Derived::UpTo { events: own, limit }),
        None => Ok(Derived::All(own)),
    }
}
