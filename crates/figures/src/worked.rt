ghost use Rattle.figures.specs.Worked.{WorkedCases};

// The cases that are worked by hand in the rules, shown of the definitions together.
pub fn worked_cases()
    ensures { WorkedCases }
{}
