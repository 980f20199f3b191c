// All that is left of a reading: what changes nothing is read stretch by stretch, and all else event by event.
ghost use Rattle.std.specs.Prelude.{◌≡◌, ℕ, ◌+◌, ◌<◌, ◌≤◌, true, false, Some, OnOk, OnErr, length, slice_get};
ghost use Rattle.sp_base.specs.Numbers.{is_among};
ghost use Rattle.sp_match.specs.declared.known.Known as known_as;
ghost use Rattle.sp_piece.specs.Reading.{skips};
ghost use Rattle.sp_piece.specs.Pieced.{loan};
ghost use Rattle.sp_piece.specs.Keeping.{IsKept, IsPast, NoneSkipped, PassesBy, going};

use crate::going::{Next, add_wanted, handle_event};
use crate::own::Own;
use crate::telling::Telling;
use crate::{Job, Memory};
use sp_match::{Known, Matcher};
use std::alloc::Global;

// The place, at most `end`, up to which the events from a place on change nothing for a matcher.
fn quiet_to(led: &Matcher, known: &[Known], from: u32, end: u32) -> u32
    requires order { from ≤ end }
    requires within { end ≤ length known.now }
    ensures from { from ≤ result }
    ensures end { result ≤ end }
    ensures quiet { (i : ℕ) (k : known_as.Known) → from ≤ i → i < result
        → slice_get known.now i ≡ Some k → PassesBy led.now k }
{
    for place in from..end {
        if !led.ignores(known[place as usize]) {
            return place;
        }
    }
    end
}

/// The next lent event, which is not to be skipped, is read. After want of memory it is not.
pub(crate) fn read_next(
    alloc: Global,
    job: &Job,
    read: &mut u32,
    matcher: &mut Own,
    telling: &mut Telling,
) -> Result<(), Memory>
    requires kept { IsKept (going job.now read.old) matcher.old telling.old.entries }
    requires next { read.old < length job.now.events }
    requires shown { skips (loan job.now) read.old ≡ false }
    ensures kept { IsKept (going job.now read.new) matcher.new telling.new.entries }
    ensures ok { OnOk result (read.new ≡ read.old + 1) }
    ensures err { OnErr result (read.new ≡ read.old) }
{
    let place = *read as usize;
    let next = Next {
        number: job.first + *read,
        event: &job.events.as_slice()[place],
        known: job.known.as_slice()[place],
        wants: job.wants,
    };
    handle_event(alloc, matcher, telling, job.before.get(), &next)?;
    *read += 1;
    Ok(())
}

// One event, or as many as change nothing, are read in front of a place up to which none is to be skipped. After
// want of memory none is.
fn read_some(
    alloc: Global,
    job: &Job,
    end: u32,
    read: &mut u32,
    matcher: &mut Own,
    telling: &mut Telling,
) -> Result<(), Memory>
    requires kept { IsKept (going job.now read.old) matcher.old telling.old.entries }
    requires next { read.old < end }
    requires within { end ≤ length job.now.events }
    requires shown { NoneSkipped job.now read.old end }
    ensures kept { IsKept (going job.now read.new) matcher.new telling.new.entries }
    ensures on { read.old ≤ read.new }
    ensures within { read.new ≤ end }
    ensures ok { OnOk result (read.old < read.new) }
{
    let so_far = matcher.led(job.before.get());
    let quiet = quiet_to(so_far, job.known.as_slice(), *read, end);
    if quiet == *read {
        return read_next(alloc, job, read, matcher, telling);
    }
    add_wanted(so_far, job.wants, quiet - *read, telling)?;
    *read = quiet;
    Ok(())
}

// The events are read up to a place in front of which none is to be skipped. After want of memory it stands
// for those that were read.
fn read_to(
    alloc: Global,
    job: &Job,
    end: u32,
    read: &mut u32,
    matcher: &mut Own,
    telling: &mut Telling,
) -> Result<(), Memory>
    requires kept { IsKept (going job.now read.old) matcher.old telling.old.entries }
    requires order { read.old ≤ end }
    requires within { end ≤ length job.now.events }
    requires shown { NoneSkipped job.now read.old end }
    ensures kept { IsKept (going job.now read.new) matcher.new telling.new.entries }
    ensures on { read.old ≤ read.new }
    ensures ok { OnOk result (read.new ≡ end) }
{
    while *read < end {
        read_some(alloc, job, end, read, matcher, telling)?;
    }
    Ok(())
}

// The events are read up to the one of a number that is to be skipped, and that is passed over, where it is
// still to be read.
fn pass_over(
    alloc: Global,
    job: &Job,
    number: u32,
    read: &mut u32,
    matcher: &mut Own,
    telling: &mut Telling,
) -> Result<(), Memory>
    requires kept { IsKept (going job.now read.old) matcher.old telling.old.entries }
    requires skipped { is_among job.now.snapshot.list number ≡ true }
    requires shown { (i : ℕ) → read.old ≤ i → i < length job.now.events → job.now.first + i < number
        → skips (loan job.now) i ≡ false }
    ensures kept { IsKept (going job.now read.new) matcher.new telling.new.entries }
    ensures on { read.old ≤ read.new }
    ensures ok { OnOk result (IsPast job.now read.new number) }
{
    let count = job.events.as_slice().len() as u32;
    if number < job.first + *read || number >= job.first + count {
        return Ok(());
    }
    read_to(alloc, job, number - job.first, read, matcher, telling)?;
    *read += 1;
    Ok(())
}

/// All lent events that are left are read, and those of the snapshot passed over. After want of memory it
/// stands for those that were read.
pub(crate) fn read_all(
    alloc: Global,
    job: &Job,
    read: &mut u32,
    matcher: &mut Own,
    telling: &mut Telling,
) -> Result<(), Memory>
    requires kept { IsKept (going job.now read.old) matcher.old telling.old.entries }
    ensures kept { IsKept (going job.now read.new) matcher.new telling.new.entries }
    ensures on { read.old ≤ read.new }
    ensures ok { OnOk result (read.new ≡ length job.now.events) }
{
    let snapshot = job.snapshot.list();
    for number in snapshot {
        pass_over(alloc, job, *number, read, matcher, telling)?;
    }
    let count = job.events.as_slice().len() as u32;
    read_to(alloc, job, count, read, matcher, telling)
}
