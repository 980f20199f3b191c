// Names one hub, so that its poster and seats are of no other hub's type.
ghost use Rattle.atomic_table.specs.Seated.{TableId};

use std::marker::Brand;
use std::sync::ledger::Ledger;

/// A hub's own name: its ledger, and its queue's table. A caller picks it with `Brand`.
pub trait Naming: Ledger {
    ghost use Rattle.atomic_table.specs.Seated.{TableId};

    ghost table: { TableId };
}

impl Naming for Brand {
    ghost use Rattle.sp_hub.specs.Names.{no_table};

    ghost table = { no_table };
}
