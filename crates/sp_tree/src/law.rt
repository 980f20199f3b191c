ghost use Rattle.sp_tree.specs.Decided.{DecisionsAddUp, OneDecisionFirst, OpeningsChangeGroups};

/// Law: groups of one owner that are decided one after another are decided at once.
pub fn decisions_add_up<V>()
    ensures { DecisionsAddUp V }
{}

/// Law: one group of an owner that is opened and decided before the others are set and decided comes to the same.
pub fn one_decision_first<V>()
    ensures { OneDecisionFirst V }
{}

/// Law: a group that opens changes nothing but the open groups of its owner.
pub fn openings_change_groups<V>()
    ensures { OpeningsChangeGroups V }
{}
