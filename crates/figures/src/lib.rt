// Small cases worked by hand, shown of the definitions that the contracts use.
#![tactic(auto)]

ghost use Rattle.figures.specs.Figures.{Figures};

// The definitions give what was worked by hand.
pub fn figures_stand()
    ensures stand { Figures }
{}
