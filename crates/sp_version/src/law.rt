ghost use Rattle.sp_version.specs.Reads.{ReadsAlike};

/// Law: a version has read, and not skipped, the events that the machine's version has, where both have the
/// same first event, position and skipped numbers.
pub fn reads_alike()
    ensures { ReadsAlike }
{}
