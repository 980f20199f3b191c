// The numbers that rows are made of.
ghost use Rattle.std.specs.Prelude.{◌≡◌};
ghost use Rattle.sp_gen.specs.Generated as g;

/// The number behind this one.
pub(crate) fn next_drawn(drawn: u32) -> u32
    ensures { result ≡ g.next drawn }
{
    drawn.wrapping_mul(1_664_525).wrapping_add(1_013_904_223)
}
