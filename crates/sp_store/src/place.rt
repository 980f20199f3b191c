ghost use Rattle.std.specs.Prelude.{IfSome, IsNone};
ghost use Rattle.sp_store.specs.Places.{AreFalling, HasId, Lacks};

/// Where the value of an id lies.
#[derive(Clone, Copy, Drop)]
pub(crate) struct Place {
    pub(crate) id: u64,
    pub(crate) key: usize,
}

/// The index of an id. It stands as far behind the newest one as its id is below that one's, where none between them
/// has gone; else it is searched.
pub(crate) fn index_of(places: &[Place], id: u64) -> Option<usize>
    requires { AreFalling places.now }
    ensures some { IfSome result (HasId places.now id) }
    ensures none { IsNone result → Lacks places.now id }
{
    if let Some(newest) = places.first() {
        let near = newest.id.saturating_sub(id) as usize;
        if near < places.len() && places[near].id == id {
            return Some(near);
        }
    }
    search(places, id)
}

// The index of an id, searched by halves.
fn search(places: &[Place], id: u64) -> Option<usize>
    requires { AreFalling places.now }
    ensures some { IfSome result (HasId places.now id) }
    ensures none { IsNone result → Lacks places.now id }
{
    let mut low = 0;
    let mut high = places.len();
    while low < high {
        let middle = low + (high - low) / 2;
        if id < places[middle].id {
            low = middle + 1;
        } else {
            high = middle;
        }
    }
    if low < places.len() && places[low].id == id {
        Some(low)
    } else {
        None
    }
}
