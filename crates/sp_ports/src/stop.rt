ghost use Rattle.std.specs.Prelude.{◌≡◌};
ghost use Rattle.sp_ports.specs.Stopping.{is_end};

/// Why no later row of an input counts.
#[derive(Clone, Copy, Drop, PartialEq, Eq)]
pub enum Failure {
    /// A row was faulty, or the input had no header: the fault's code, the row from 1 and the cell's
    /// place from 1, or 0 where there is none.
    Row { code: u8, row: u32, column: u32 },
    /// The input has more rows or more events than this.
    Limit { limit: u32 },
}

/// Why the reading of an input stopped. It is handed on as it is, from what reads the rows to the status of the command.
#[derive(Clone, Copy, Drop, PartialEq, Eq)]
pub enum Stop {
    /// The input was read to its end.
    End,
    Failed(Failure),
    /// The source failed.
    Open,
}

impl Stop {
    /// Whether the input was read to its end.
    pub fn is_end(self) -> bool
        ensures { result ≡ is_end self }
    {
        matches!(self, Stop::End)
    }
}
