ghost use Rattle.sp_base.specs.Numbers.{RisingSame};

/// Law: two strictly rising lists with the same numbers are equal.
pub fn rising_same()
    ensures { RisingSame }
{}
