// What holds of every text.
ghost use Rattle.sp_lex.specs.Laws.{TokensOrOneFault};

/// Law: a text has at most one list of tokens, at most one fault but for want of memory, and not both.
pub fn one_fault()
    ensures { TokensOrOneFault }
{}
