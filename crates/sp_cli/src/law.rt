// Laws of words.
ghost use Rattle.sp_cli.specs.Limits.{NumbersAreWithin};
ghost use Rattle.sp_cli.specs.Paired.{PairsAreFound};
ghost use Rattle.sp_cli.specs.PairedCommands.{PairsAreCommands};

/// Law: options may stand in pairs of a name and a value, in any order, each at most once, where no value
/// begins with a hyphen; each then says what stands behind its name.
pub fn pairs_are_found()
    ensures { PairsAreFound }
{}

/// Law: such words behind the name of a command, and behind the two numbers of a drill, are the command that
/// their values say.
pub fn pairs_are_commands()
    ensures { PairsAreCommands }
{
    pairs_are_found();
}

/// Law: the numbers of a command are within their limits.
pub fn numbers_are_within()
    ensures { NumbersAreWithin }
{}
