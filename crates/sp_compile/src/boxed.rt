// Boxes whose want of memory is a fault like any other.
ghost use Rattle.std.specs.Prelude.{◌≡◌, IfOk};

use std::alloc::{AllocError, Global};

// This value in a box.
pub(crate) fn boxed<T: Drop>(alloc: Global, value: T) -> Result<Box<T>, AllocError>
    ensures { IfOk result (λ b. b.value ≡ value) }
{
    Ok(Box::new(alloc, value)?)
}

// These values in boxes.
pub(crate) fn boxed_pair<T: Drop>(
    alloc: Global,
    left: T,
    right: T,
) -> Result<(Box<T>, Box<T>), AllocError>
    ensures { IfOk result (λ p. (p.0.value ≡ left) × (p.1.value ≡ right)) }
{
    let left = boxed(alloc, left)?;
    let right = boxed(alloc, right)?;
    Ok((left, right))
}
