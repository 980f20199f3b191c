// The rows of a sheet: which calls each has made, and what differs is told.
use crate::call::{Call, Outcome};
use crate::reader::rows_of;
use crate::row::Row;
use crate::telling::tell;
use std::alloc::{AllocError, Global};
use std::{fs, io};

/// The calls that a row may have made, in this order.
#[derive(Clone, Copy, Drop)]
pub enum Way {
    /// `plain` with the same query, whose output is expected of the others, in front of what the row says.
    Plain,
    /// Without an instance, where the row's words leave their number open.
    Alone,
    /// As the row has it.
    Written,
}

/// The rows of a sheet. Where it can't be read, or a line isn't taken, that is told, and there are none.
pub fn read_sheet(rt: HostRuntime, sheet: &str) -> io::Result<Option<Vec<Row>>> {
    let Ok(text) = fs::read_to_string(&rt, sheet) else {
        eprintln!(rt; "{sheet}: cannot be read")?;
        return Ok(None);
    };
    match rows_of(rt.alloc(), text.as_str()) {
        Ok(rows) => Ok(Some(rows)),
        Err((line, fault)) => {
            eprintln!(rt; "{sheet}, line {line}: {}", fault.0)?;
            Ok(None)
        }
    }
}

impl Row {
    /// The call to be made this way, if the row has one.
    pub fn call(&self, alloc: Global, way: Way) -> Result<Option<Call>, AllocError> {
        match way {
            Way::Plain if self.is_as_plain => Ok(Some(self.call.as_plain(alloc)?)),
            Way::Alone if self.call.leaves_instances() => Ok(Some(self.call.alone(alloc)?)),
            Way::Written => Ok(Some(self.call.clone()?)),
            _ => Ok(None),
        }
    }

    /// Takes what came of the call that was made this way. Answers whether it is what the row says, and tells how
    /// it differs where it isn't.
    pub fn take(
        &mut self,
        rt: HostRuntime,
        sheet: &str,
        way: Way,
        came: Outcome,
    ) -> io::Result<bool> {
        if let Way::Plain = way {
            let mut output = came.output;
            output.extend_from_slice(&self.expected.output)?;
            self.expected.output = output;
            return Ok(true);
        }
        let is_well = came == self.expected;
        if !is_well {
            let how = match way {
                Way::Alone => ", without an instance",
                _ => "",
            };
            eprintln!(rt; "{sheet}: differs: {}{how}", self.name)?;
            tell(&rt, &self.expected, &came)?;
        }
        Ok(is_well)
    }
}
