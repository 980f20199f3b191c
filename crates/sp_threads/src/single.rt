// Calls of a store and of labels, with ample memory.
ghost use Rattle.std.specs.Prelude.{◌≡◌};

use sp_group::{Label, Refusal};
use sp_store::{PutFault, Store};
use std::alloc::Global;
use std::process::Abort;
use std::test::*;

#[test]
fn a_store_of_one_is_full_with_one(rt: HostRuntime) -> Result<(), Fail> {
    let mut store = Store::new(rt.alloc(), 1)?;
    let Ok(1) = store.put(7u32) else {
        return Err("the first id".into());
    };
    let Err(PutFault::Full { live, bound, value }) = store.put(8u32) else {
        return Err("a full store".into());
    };
    assert!(rt; live == 1 && bound == 1 && value == 8);
    assert!(rt; matches!(store.renew(1), Some(2)));
    assert!(rt; store.get(1).is_none());
    assert!(rt; matches!(store.take(2), Some(7)));
    assert!(rt; store.live() == 0);
    Ok(())
}

#[test]
fn labels_are_made_and_changed(rt: HostRuntime) -> Result<(), Fail> {
    let alloc = rt.alloc();
    assert!(rt; Label::new(alloc, &[2, 2])?.is_none());
    assert!(rt; Label::new(alloc, &[0, 3])?.is_none());
    let label = Label::new(alloc, &[1, 3])?.ok_or("a label")?;
    assert!(rt; matches!(label.runs(), [1, 3]));
    let copy = label.copy(alloc)?;
    assert!(rt; copy.same(&label));
    assert!(rt; Refusal::NotDone { finished: 0 }.code() == 11);
    change(&rt, alloc, copy)
}

// Changes a label of 1 and 3.
fn change<R: Abort>(rt: &R, alloc: Global, label: Label) -> Result<(), Fail> {
    let mut label = label;
    label.remove(1);
    assert!(rt; !label.has(1));
    if !label.has(2) {
        label.insert(2)?;
    }
    assert!(rt; matches!(label.runs(), [2, 3]));
    label.clear();
    assert!(rt; label.same(&Label::empty(alloc)));
    Ok(())
}
