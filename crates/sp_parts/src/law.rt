// What is true of parts. A law runs no code: who calls it has the fact.
ghost use Rattle.sp_parts.specs.Laws.{PartsFallApart, PartsLieWithin};

/// Law: the matches of an input are, in order, those of its parts, each part taken by itself and its
/// matches shifted.
pub fn parts_fall_apart()
    ensures { PartsFallApart }
{}

/// Law: the parts of an input have events that lie within it, and their matches, once shifted, are of its
/// windows and events; only the last part can be open, and none is where the input has ended.
pub fn parts_lie_within()
    ensures { PartsLieWithin }
{}
