// Small cases, shown of the definitions themselves.
ghost use Rattle.sketch.specs.Worked.{WorkedCases};

// The definitions give what was worked by hand.
pub fn worked_cases_stand()
    ensures stand { WorkedCases }
{}
