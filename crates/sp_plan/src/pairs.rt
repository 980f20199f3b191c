// Pairs of a name and an event, in a list that its copies share page by page.
ghost use Rattle.std.specs.Prelude.{◌≡◌, ◌++◌, ◌∷◌, [], ◌<◌, ◌≤◌, ◌-◌, length, map, take, drop, IfOk, OnOk, OnErr, slice_index_or};
ghost use Rattle.std.specs.Option.{option_copied};
ghost use Rattle.sp_plan.specs.Blocks.{Blocked, named, last_named};
ghost use Rattle.sp_plan.specs.Released.{AreReleased};

use crate::{Memory, SharedEvent};
use std::alloc::{AllocError, AllocFailed, Global};
use std::marker::Model;
use std::mem;
use std::sync::Arc;

// So many pairs are in a page.
const PAGE: usize = 32;

// Once so many pairs are in pages, a list takes no page more.
const MOST: usize = 1 << 62;

// An event that is bound to a name. Its block is the run of pairs of the same name that stand
// together and end with it; `block` is the place of the first of them.
#[derive(Drop)]
pub(crate) struct Pair {
    pub(crate) name: u8,
    pub(crate) block: usize,
    pub(crate) event: SharedEvent,
}

// Pairs that no longer change, as many as fill a page. The handles that `share` makes are of the same page.
#[derive(Drop)]
struct Page {
    pairs: Arc<Vec<Pair>>,
}

impl Model for Page {
    ghost use Rattle.std.specs.Prelude.{List};
    ghost use Rattle.std.specs.Arc.{arc_value};
    ghost use Rattle.sp_plan.specs.declared.pairs.Pair.{Pair};

    ghost Value = { List Pair };

    ghost view = { λ p. (arc_value p.pairs).items };
}

impl Page {
    // One handle more of the page. No pair is copied.
    fn share(&self) -> Result<Page, Memory>
        ensures { IfOk result (λ page. page ≡ self.now) }
    {
        Ok(Page {
            pairs: Arc::try_clone(&self.pairs)?,
        })
    }

    // Its pairs.
    fn pairs(&self) -> &[Pair]
        ensures { result.now ≡ self.now }
    {
        self.pairs.as_slice()
    }
}

// The pages once more, in a room that is used again.
fn share_pages(shared: &mut Vec<Page>, pages: &[Page]) -> Result<(), Memory>
    ensures { OnOk result (shared.new.items ≡ pages.now) }
{
    shared.clear();
    shared.reserve(pages.len())?;
    for page in pages {
        shared.push_reserved(page.share()?);
    }
    Ok(())
}

// The pairs once more, in a room that is used again.
fn share_pairs(shared: &mut Vec<Pair>, pairs: &[Pair]) -> Result<(), Memory>
    ensures { OnOk result (shared.new.items ≡ pairs.now) }
{
    shared.clear();
    shared.reserve(pairs.len())?;
    for pair in pairs {
        shared.push_reserved(Pair {
            name: pair.name,
            block: pair.block,
            event: pair.event.share()?,
        });
    }
    Ok(())
}

// A list of pairs that grows and shrinks at its end. Its first pairs stand in pages, which its copies
// share; those behind them, mostly fewer than fill a page, are its own.
#[derive(Drop)]
pub(crate) struct Pairs {
    pages: Vec<Page>,
    // so many pairs of the pages are in the list: all, unless pairs of the last page were taken away
    paged: usize,
    tail: Vec<Pair>,
}

impl Model for Pairs {
    ghost use Rattle.std.specs.Prelude.{List, ◌++◌, take};
    ghost use Rattle.sp_plan.specs.declared.pairs.Pair.{Pair};
    ghost use Rattle.sp_plan.specs.Pages.{joined, Paged};

    ghost Value = { List Pair };

    ghost view = { λ p. take p.paged (joined p.pages.items) ++ p.tail.items };

    ghost invariant = { λ p. Paged p.pages.items p.paged };
}

impl Pairs {
    // No pair. Takes no memory.
    pub(crate) fn new(alloc: Global) -> Pairs
        ensures { result ≡ [] }
    {
        Pairs {
            pages: Vec::new(alloc),
            paged: 0,
            tail: Vec::new(alloc),
        }
    }

    // How many pairs there are.
    pub(crate) fn len(&self) -> usize
        ensures { result ≡ length self.now }
    {
        self.paged + self.tail.len()
    }

    // The pair at that place, from 0.
    pub(crate) fn at(&self, place: usize) -> &Pair
        requires { place < length self.now }
        ensures { result.now ≡ slice_index_or self.now place result.now }
    {
        if place >= self.paged {
            &self.tail[place - self.paged]
        } else {
            &self.pages[place / PAGE].pairs()[place % PAGE]
        }
    }

    // The last pair of the name, None exactly where there is none. Takes one step for each block of
    // equal names from there to the end.
    pub(crate) fn last_of(&self, name: u8) -> Option<&Pair>
        requires { Blocked [] self.now }
        ensures { option_copied result ≡ last_named name self.now }
    {
        let mut left = self.len();
        while left > self.paged {
            let pair = &self.tail[left - 1 - self.paged];
            if pair.name == name {
                return Some(pair);
            }
            left = pair.block;
        }
        self.last_before(left, name)
    }

    // The same, where it is known that none stands at that place or behind it.
    fn last_before(&self, place: usize, name: u8) -> Option<&Pair>
        requires blocked { Blocked [] self.now }
        requires within { place ≤ length self.now }
        requires none { named name (drop place self.now) ≡ [] }
        ensures { option_copied result ≡ last_named name self.now }
    {
        let mut left = place;
        while left > 0 {
            let before = self.at(left - 1);
            if before.name == name {
                return Some(before);
            }
            left = before.block;
        }
        None
    }

    // Makes a page of the pairs behind the pages where they fill one. Behind a page of which pairs were
    // taken away comes no other. Want of memory leaves the list as it was.
    fn settle(&mut self) -> Result<(), Memory>
        ensures { self.new ≡ self.old }
    {
        if self.tail.len() != PAGE || self.paged % PAGE != 0 || self.paged >= MOST {
            return Ok(());
        }
        let alloc = *self.tail.allocator();
        self.pages.reserve(1)?;
        let tail = Vec::with_capacity(alloc, PAGE)?;
        let full = mem::replace(&mut self.tail, tail);
        match Arc::new(alloc, full) {
            Ok(pairs) => {
                self.pages.push_reserved(Page { pairs });
                self.paged += PAGE;
                Ok(())
            }
            Err(AllocFailed { value }) => {
                self.tail = value;
                Err(AllocError)
            }
        }
    }

    // One pair more. Want of memory leaves the list as it was.
    pub(crate) fn push(&mut self, pair: Pair) -> Result<(), Memory>
        ensures pushed { OnOk result (self.new ≡ self.old ++ pair ∷ []) }
        ensures kept { OnErr result (self.new ≡ self.old) }
    {
        self.settle()?;
        self.tail.push(pair)?;
        Ok(())
    }

    // Takes the last pair away. Takes no memory.
    pub(crate) fn pop(&mut self)
        requires { 0 < length self.old }
        ensures { self.new ≡ take (length self.old - 1) self.old }
    {
        if !self.tail.is_empty() {
            self.tail.pop();
            return;
        }
        self.paged -= 1;
        if self.paged % PAGE == 0 {
            self.pages.pop();
        }
    }

    // Takes all pairs away, and keeps the room for them. Takes no memory.
    pub(crate) fn clear(&mut self)
        ensures { self.new ≡ [] }
    {
        self.pages.clear();
        self.paged = 0;
        self.tail.clear();
    }

    // Takes all pairs away as `clear` does, and puts the handles of those that stand in no page behind those in
    // the list, the last one first. Handles for which memory is wanting are dropped.
    pub(crate) fn release(&mut self, handles: &mut Vec<SharedEvent>)
        ensures none { self.new ≡ [] }
        ensures handles { AreReleased (map (λ p. p.event) self.old)
            handles.old.items handles.new.items }
    {
        self.pages.clear();
        self.paged = 0;
        while let Some(pair) = self.tail.pop() {
            let _ = handles.push(pair.event);
        }
    }

    // The same pairs once more. No page is copied, and no event.
    pub(crate) fn copy(&self, alloc: Global) -> Result<Pairs, Memory>
        ensures { IfOk result (λ pairs. pairs ≡ self.now) }
    {
        let mut pairs = Pairs::new(alloc);
        pairs.copy_from(self)?;
        Ok(pairs)
    }

    // The same pairs as those of another list, in the rooms of this one. No page is copied, and no event. After want of
    // memory there is none.
    pub(crate) fn copy_from(&mut self, other: &Pairs) -> Result<(), Memory>
        ensures ok { OnOk result (self.new ≡ other.now) }
        ensures err { OnErr result (self.new ≡ []) }
    {
        if share_pages(&mut self.pages, &other.pages).is_ok()
            && share_pairs(&mut self.tail, &other.tail).is_ok()
        {
            self.paged = other.paged;
            return Ok(());
        }
        self.pages.clear();
        self.paged = 0;
        self.tail.clear();
        Err(AllocError)
    }
}
