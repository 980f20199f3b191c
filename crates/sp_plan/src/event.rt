ghost use Rattle.std.specs.Prelude.{◌≡◌, ◌<◌, ◌≤◌, IfOk, OnOk, OnErr, [], ◌∷◌, ◌++◌, length, take, slice_get, ◌↔◌, IsTrue, unsigned_abs};
ghost use Rattle.std.specs.List.{All};
ghost use Rattle.sp_plan.specs.Kept.{IsPart, no_value, parts_of, whole_of, with_value};
ghost use Rattle.sp_plan.specs.Values.{units};
ghost use Rattle.sp_plan.specs.Bounds.{SmallValue};
ghost use Rattle.sp_base.specs.Limits.{number_limit};

use crate::Memory;
use std::alloc::Global;
use std::marker::Model;
use std::mem::size_of;

/// What stands in a column of an event.
#[derive(Clone, Copy, Drop, PartialEq, Eq)]
pub enum Value {
    /// A number in units of its column's scale: `1.25` in a column of two decimals is 125.
    Number(i64),
    /// A text, by its number: its place in `Plan::texts` from 0, or a later number for a text that
    /// only the input has. Equal texts have equal numbers.
    Symbol(u32),
}

impl Default for Value {
    fn default() -> Value {
        Value::Number(0)
    }
}

// So many values stand in the event itself.
const FEW: usize = 4;

// Where the values of an event stand.
#[derive(Drop)]
enum Kept {
    // In the event: the first `count` of these numbers, and of each whether it is a text's. The other
    // places are blank.
    Few {
        count: u8,
        texts: [bool; FEW],
        numbers: [i64; FEW],
    },
    // On the heap.
    Many(Vec<Value>),
}

/// The values of an event, which contracts see as a list. Up to four stand in the event itself, and more
/// on the heap, so that an event of few columns takes no memory, and is copied as one block.
#[derive(Drop)]
pub struct Values {
    alloc: Global,
    kept: Kept,
}

// An event of few columns takes no more than its time, four numbers, and eight bytes beside them.
const _: () = prove!(size_of::<Event>() == 48);

impl Model for Values {
    ghost use Rattle.std.specs.Prelude.{List};
    ghost use Rattle.sp_plan.specs.declared.event.Value as one;

    ghost Value = { List one.Value };

    ghost use Rattle.sp_plan.specs.Kept.{listed, Counted};

    ghost view = { λ s. listed s.kept };

    ghost invariant = { λ s. Counted s.kept };
}

// No value, in places of the event.
#[inline(always)]
fn blank() -> Kept
    ensures { result ≡ no_value }
{
    Kept::Few {
        count: 0,
        texts: [false; FEW],
        numbers: [0; FEW],
    }
}

// A number, and whether it is a text's.
#[inline(always)]
fn parts(value: Value) -> (bool, i64)
    ensures parts { result ≡ parts_of value }
    ensures part { IsPart (parts_of value) }
{
    match value {
        Value::Number(number) => (false, number),
        Value::Symbol(symbol) => (true, i64::from(symbol)),
    }
}

// The value that has these parts.
#[inline(always)]
fn whole(text: bool, number: i64) -> Value
    requires { IsPart (text, number) }
    ensures { result ≡ whole_of (text, number) }
{
    if text {
        Value::Symbol(number as u32)
    } else {
        Value::Number(number)
    }
}

// Puts a value into a place of the event, where the values stand there.
#[inline(always)]
fn put(kept: &mut Kept, place: usize, value: Value)
    requires { place < 4 }
    ensures kept { kept.new ≡ with_value kept.old place value }
    ensures part { IsPart (parts_of value) }
{
    let (text, number) = parts(value);
    // A pattern can lend one of the two.
    if let Kept::Few { texts, .. } = kept {
        texts[place] = text;
    }
    if let Kept::Few { numbers, .. } = kept {
        numbers[place] = number;
    }
}

// Whether two lists of values are one.
fn same_values(xs: &[Value], ys: &[Value]) -> bool
    ensures { IsTrue result ↔ (xs.now ≡ ys.now) }
{
    xs == ys
}

// Whether the places of two events hold the same in the first so many.
#[inline(always)]
fn same_first(
    count: u8,
    texts: &[bool; FEW],
    numbers: &[i64; FEW],
    signs: &[bool; FEW],
    others: &[i64; FEW],
) -> bool
    requires { count ≤ 4 }
    ensures { IsTrue result
        ↔ ((take count texts.now ≡ take count signs.now)
        × (take count numbers.now ≡ take count others.now)) }
{
    for i in 0..FEW {
        if i >= count as usize {
            return true;
        }
        if texts[i] != signs[i] || numbers[i] != others[i] {
            return false;
        }
    }
    true
}

impl Values {
    /// These values. Takes no memory for up to four.
    pub fn from_slice(alloc: Global, values: &[Value]) -> Result<Values, Memory>
        ensures { IfOk result (λ own. own ≡ values.now) }
    {
        let mut own = Values::with_capacity(alloc, values.len())?;
        for value in values {
            own.push(*value)?;
        }
        Ok(own)
    }

    /// No value, with room for so many. Takes no memory for up to four.
    pub fn with_capacity(alloc: Global, count: usize) -> Result<Values, Memory>
        ensures { IfOk result (λ values. values ≡ []) }
    {
        let kept = if count <= FEW {
            blank()
        } else {
            Kept::Many(Vec::with_capacity(alloc, count)?)
        };
        Ok(Values { alloc, kept })
    }

    /// One value more, behind the others. After want of memory the values are as before.
    #[inline]
    pub fn push(&mut self, value: Value) -> Result<(), Memory>
        ensures ok { OnOk result (self.new ≡ self.old ++ value ∷ []) }
        ensures err { OnErr result (self.new ≡ self.old) }
    {
        match &mut self.kept {
            Kept::Few { count, .. } => {
                let place = *count as usize;
                if place >= FEW {
                    return self.spill(value);
                }
                *count += 1;
                put(&mut self.kept, place, value);
            }
            Kept::Many(values) => values.push(value)?,
        }
        Ok(())
    }

    // The same, where the values are to stand on the heap from here on.
    #[cold]
    fn spill(&mut self, value: Value) -> Result<(), Memory>
        ensures ok { OnOk result (self.new ≡ self.old ++ value ∷ []) }
        ensures err { OnErr result (self.new ≡ self.old) }
    {
        let mut values = self.spilled()?;
        values.push(value)?;
        self.kept = Kept::Many(values);
        Ok(())
    }

    // The values on the heap, with room for as many more.
    #[cold]
    fn spilled(&self) -> Result<Vec<Value>, Memory>
        ensures { IfOk result (λ values. values.items ≡ self.now) }
    {
        let mut values = Vec::with_capacity(self.alloc, 2 * FEW)?;
        for place in 0..self.len() {
            if let Some(own) = self.get(place) {
                values.push(own)?;
            }
        }
        Ok(values)
    }

    /// How many there are.
    #[inline]
    pub fn len(&self) -> usize
        ensures { result ≡ length self.now }
    {
        match &self.kept {
            Kept::Few { count, .. } => *count as usize,
            Kept::Many(values) => values.len(),
        }
    }

    /// The value at a place, from 0 in the order of the plan's columns; None behind the last.
    #[inline(always)]
    pub fn get(&self, place: usize) -> Option<Value>
        ensures { result ≡ slice_get self.now place }
    {
        match &self.kept {
            Kept::Few {
                count,
                texts,
                numbers,
            } => {
                if place < *count as usize {
                    Some(whole(texts[place], numbers[place]))
                } else {
                    None
                }
            }
            Kept::Many(values) => values.as_slice().get(place).copied(),
        }
    }

    // The value at a place as a number, be it a text's; 0 behind the last.
    #[inline(always)]
    pub(crate) fn number(&self, place: usize) -> i64
        ensures value { result ≡ units (slice_get self.now place) }
        ensures small { All SmallValue self.now → unsigned_abs result ≤ number_limit }
    {
        match &self.kept {
            Kept::Few { count, numbers, .. } => {
                if place < *count as usize {
                    numbers[place]
                } else {
                    0
                }
            }
            Kept::Many(_) => match self.get(place) {
                Some(value) => parts(value).1,
                None => 0,
            },
        }
    }

    // Whether these are the values of another event too.
    #[inline]
    pub(crate) fn same(&self, other: &Values) -> bool
        ensures { IsTrue result ↔ (self.now ≡ other.now) }
    {
        match (&self.kept, &other.kept) {
            (
                Kept::Few {
                    count,
                    texts,
                    numbers,
                },
                Kept::Few {
                    count: size,
                    texts: signs,
                    numbers: others,
                },
            ) => count == size && same_first(*count, texts, numbers, signs, others),
            (Kept::Many(values), Kept::Many(others)) => {
                same_values(values.as_slice(), others.as_slice())
            }
            _ => self.same_by_place(other),
        }
    }

    // The same, asked place by place.
    #[cold]
    fn same_by_place(&self, other: &Values) -> bool
        ensures { IsTrue result ↔ (self.now ≡ other.now) }
    {
        if self.len() != other.len() {
            return false;
        }
        for place in 0..self.len() {
            if self.get(place) != other.get(place) {
                return false;
            }
        }
        true
    }

    /// The same values once more. Takes no memory for up to four.
    #[inline]
    pub fn copy(&self, alloc: Global) -> Result<Values, Memory>
        ensures { IfOk result (λ values. values ≡ self.now) }
    {
        let kept = match &self.kept {
            Kept::Few {
                count,
                texts,
                numbers,
            } => Kept::Few {
                count: *count,
                texts: *texts,
                numbers: *numbers,
            },
            Kept::Many(values) => Kept::Many(Vec::from_slice(alloc, values.as_slice())?),
        };
        Ok(Values { alloc, kept })
    }
}

/// One row of the input. Its number, which it doesn't hold, is its place in the input from 1.
#[derive(Drop)]
pub struct Event {
    /// 0 to 10^15, in the input's own unit; 0 where the query has no time.
    pub time: i64,
    /// One value for each column of the plan's schema, in the order of the schema.
    pub values: Values,
}

impl Event {
    /// The same event once more.
    pub fn copy(&self, alloc: Global) -> Result<Event, Memory>
        ensures { IfOk result (λ event. event ≡ self.now) }
    {
        Ok(Event {
            time: self.time,
            values: self.values.copy(alloc)?,
        })
    }

    /// The same events once more. Takes memory for the list, and for the values of events that have more than four.
    pub fn copies(alloc: Global, events: &[Event]) -> Result<Vec<Event>, Memory>
        ensures { IfOk result (λ list. list.items ≡ events.now) }
    {
        let mut list = Vec::with_capacity(alloc, events.len())?;
        for event in events {
            match &event.values.kept {
                // It is copied from place to place.
                Kept::Few {
                    count,
                    texts,
                    numbers,
                } => list.push_reserved(Event {
                    time: event.time,
                    values: Values {
                        alloc,
                        kept: Kept::Few {
                            count: *count,
                            texts: *texts,
                            numbers: *numbers,
                        },
                    },
                }),
                Kept::Many(_) => list.push_reserved(event.copy(alloc)?),
            }
        }
        Ok(list)
    }
}
