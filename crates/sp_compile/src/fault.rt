// Why a query has no plan.
ghost use Rattle.std.specs.Prelude.{◌≡◌, Some, None, IfOk, IfErr};
ghost use Rattle.sp_compile.specs.Codes.{code_of, place_of};

use sp_query::Span;
use std::alloc::AllocError;

/// Why a query can't be meant, with the part of its text where the first fault is; to be told by its code
/// and its place.
#[derive(Debug, Drop, thiserror::Error)]
#[error("the query has no plan")]
pub enum CompileFault {
    /// No such column or name of the pattern.
    Unknown(Span),
    /// A name that stands twice.
    Twice(Span),
    /// Texts and numbers, or their kinds, do not go together.
    WrongKind(Span),
    /// One or more events at the end of the pattern.
    PlusLast(Span),
    /// A name that is not bound earlier.
    LateReference(Span),
    /// Numbers that may be too great.
    TooWide(Span),
    /// A window past its limits.
    BadWindow(Span),
    /// More columns than 64, or names than 32.
    TooMany(Span),
    /// A negated name at an end of the pattern.
    NeverEnds(Span),
    /// A negated name, where one that binds events is needed.
    NeverBound(Span),
    /// Out of memory.
    Memory,
}

/// Goes on where a check found no fault.
pub(crate) fn pass(found: Option<CompileFault>) -> Result<(), CompileFault>
    ensures passes { IfOk result (λ _. found ≡ None) }
    ensures refused { IfErr result (λ fault. found ≡ Some fault) }
{
    match found {
        None => Ok(()),
        Some(fault) => Err(fault),
    }
}

/// The value, where a check behind it found no fault.
pub(crate) fn checked<T: Drop>(value: T, found: Option<CompileFault>) -> Result<T, CompileFault>
    ensures passes { IfOk result (λ same. (same ≡ value) × (found ≡ None)) }
    ensures refused { IfErr result (λ fault. found ≡ Some fault) }
{
    match found {
        None => Ok(value),
        Some(fault) => Err(fault),
    }
}

impl From<AllocError> for CompileFault {
    ghost use Rattle.sp_compile.specs.declared.fault.CompileFault.TheVariants.{Memory};

    ghost from_gives = { λ _ e. e ≡ Memory };

    fn from(_: AllocError) -> CompileFault {
        CompileFault::Memory
    }
}

impl CompileFault {
    /// The printed code, 21 to 30. Want of memory has none; it gives 0.
    pub fn code(&self) -> u8
        ensures { result ≡ code_of self.now }
    {
        match self {
            CompileFault::Unknown(_) => 21,
            CompileFault::Twice(_) => 22,
            CompileFault::WrongKind(_) => 23,
            CompileFault::PlusLast(_) => 24,
            CompileFault::LateReference(_) => 25,
            CompileFault::TooWide(_) => 26,
            CompileFault::BadWindow(_) => 27,
            CompileFault::TooMany(_) => 28,
            CompileFault::NeverEnds(_) => 29,
            CompileFault::NeverBound(_) => 30,
            CompileFault::Memory => 0,
        }
    }

    /// Where its part of the text begins, in bytes from 0; 0 for want of memory.
    pub fn place(&self) -> u32
        ensures { result ≡ place_of self.now }
    {
        match self {
            CompileFault::Unknown(span)
            | CompileFault::Twice(span)
            | CompileFault::WrongKind(span)
            | CompileFault::PlusLast(span)
            | CompileFault::LateReference(span)
            | CompileFault::TooWide(span)
            | CompileFault::BadWindow(span)
            | CompileFault::TooMany(span)
            | CompileFault::NeverEnds(span)
            | CompileFault::NeverBound(span) => span.from,
            CompileFault::Memory => 0,
        }
    }
}
