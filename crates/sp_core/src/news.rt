// What came home since no version was in conflict. By it alone a version can be in one: what its ancestors
// read, and only from the first event on that was lent.
ghost use Rattle.std.specs.Prelude.{◌≡◌, ℕ, ◌<◌, ◌||◌, ◌&&◌, ◌++◌, ◌∷◌, [], nat_le, nat_lt, IfSome};
ghost use Rattle.std.specs.List.{list_any};
ghost use Rattle.sp_group.specs.Family.{entry_at};
ghost use Rattle.sp_tree.specs.Grown.{kin};
ghost use Rattle.sp_core.specs.News.{covers, is_from, is_new};
ghost use Rattle.sp_core.specs.Rooms.{room};

use crate::conflicts::lesser;
use sp_tree::Tree;
use sp_version::Version;

/// A piece came home.
#[derive(Drop)]
pub(crate) struct News {
    // The window of its version.
    pub(crate) window: u32,
    // The first event that it was lent.
    pub(crate) first: u32,
}

impl News {
    // Whether its version was of a window before this one.
    fn is_before(&self, window: u32) -> bool
        ensures { result ≡ nat_lt self.now.window window }
    {
        self.window < window
    }
}

// The first event from which on something is new to versions of a window; None where nothing is.
pub(crate) fn first_new(news: &[News], window: u32) -> Option<u32>
    ensures { (i : ℕ) → is_new news.now window i ≡ is_from result i }
{
    let mut first = None;
    for heard in news {
        if heard.is_before(window) {
            first = lesser(first, Some(heard.first));
        }
    }
    first
}

// Whether what a piece brings home is new to no one to whom it isn't by one of these.
fn is_told(news: &[News], window: u32, first: u32) -> bool
    ensures { result ≡ list_any (covers window first) news.now }
{
    news.iter()
        .any(|heard| heard.window <= window && heard.first <= first)
}

// Adds one, for which there is room.
fn add(news: &mut Vec<News>, one: News)
    requires { 0 < room news.old }
    ensures { news.new.items ≡ news.old.items ++ one ∷ [] }
{
    let _ = news.push(one);
}

// Takes in that a piece came home, for which there is room.
pub(crate) fn hear(news: &mut Vec<News>, window: u32, first: u32)
    requires { 0 < room news.old }
    ensures { (later i : ℕ)
        → is_new news.new.items later i
        ≡ (is_new news.old.items later i || (nat_lt window later && nat_le first i)) }
{
    // So where roots alone read, no more is kept than the first one's.
    if is_told(news, window, first) {
        return;
    }
    add(news, News { window, first });
}

// The window of a version; 0 where it is not live.
pub(crate) fn window_of(tree: &Tree<Version>, version: u64) -> u32
    ensures { IfSome (entry_at kin tree.now.entries version) (λ e. result ≡ e.value.window) }
{
    match tree.get(version) {
        Some(held) => held.window,
        None => 0,
    }
}
