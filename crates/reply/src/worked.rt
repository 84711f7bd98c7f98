// Sample replies, shown of the definitions themselves.
ghost use Rattle.reply.specs.Worked.{WorkedCases};

// The definitions give the lines as they are printed.
pub fn worked_cases_stand()
    ensures stand { WorkedCases }
{}
