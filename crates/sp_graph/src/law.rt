// What is true of derived events. A law runs no code: who calls it has the fact.
ghost use Rattle.sp_graph.specs.Laws.{ReturnedTextsAreThere};

/// Law: expressions that a compiler hands in give no text but those that the first input lists, where its
/// events fit the first query, the texts of that are among those listed, and each match binds its names.
pub fn returned_texts_are_there()
    ensures { ReturnedTextsAreThere }
{}
