// The register of the jobs that were lent: ghost state that all receipts share, and a word that counts its entries.
ghost use Rattle.std.specs.Prelude.{◌≡◌, []};
ghost use Rattle.sp_lend.specs.Registered.{head_of};

use logbook::{Gain, Plain, Play, Rule, Seen, Start, Word};
use sp_piece::Job;
use std::marker::Brand;

/// The rule of a register.
pub struct Rising;

impl Rule<Job, u64> for Rising {
    ghost use Rattle.std.specs.Prelude.{[]};
    ghost use base.Fml.{ftrue};
    ghost use Rattle.sp_lend.specs.Registered.{IsCounted};

    ghost holds = { λ cells log. IsCounted cells log };

    ghost first = { [] };

    ghost hinted = { λ n log. Unit {0} };

    ghost shows = { λ log. [] };

    ghost keeps = { λ names log. ftrue };

    ghost moves = { λ ask before after answer. Unit {0} };
}

/// The rule that asks nothing, of a register that nobody opens: types name a register by it.
pub struct Unruled;

impl<E> Rule<E, u64> for Unruled {
    ghost use Rattle.std.specs.Prelude.{[]};
    ghost use base.Fml.{ftrue};

    ghost holds = { λ cells log. Unit {0} };

    ghost first = { [] };

    ghost hinted = { λ n log. Unit {0} };

    ghost shows = { λ log. [] };

    ghost keeps = { λ names log. ftrue };

    ghost moves = { λ ask before after answer. Unit {0} };
}

/// Nobody trades anything for an entry.
pub struct Nothing;

impl Gain<Job, u64> for Nothing {
    ghost use base.Fml.{ftrue};

    ghost after = { λ names about answer. ftrue };
}

/// A step that enters a job.
pub struct Enters;

impl Play<Job, u64> for Enters {
    ghost use Rattle.sp_lend.specs.Registered.{Entered};

    ghost then = { Entered };
}

impl Plain<Job, Job, u64> for Enters {
    ghost use Rattle.std.specs.Prelude.{None};

    ghost ask = { λ job. job };

    ghost state = { λ job. None };
}

/// The name of a register. A caller picks it with `Brand`, before a hub for its loans is opened, whose type has this one.
pub trait Lending {
    ghost use Rattle.logbook.specs.Pages.{Book};

    ghost book: { Book };
}

impl Lending for Brand {
    ghost book = { record { number = 0; log_name = 0; cells_name = 0 } };
}

/// A register in which no job is entered, and that has no name yet. It is made before the call that names it.
#[derive(Drop)]
pub struct Register {
    pub(crate) head: Word<Job, u64, Rising>,
    pub(crate) seen: Seen<Job, u64, Rising>,
    pub ghost empty: { seen.log ≡ [] },
    pub ghost head_is: { head ≡ head_of seen.book },
}

impl Register {
    /// Takes no memory.
    pub fn new() -> Register {
        let (seen, mut first, _second) = Seen::open(Start::alone(), 0, 0);
        Register {
            head: Word::tracked(0, &mut first),
            seen,
        }
    }
}
