// The worked figures, as the contract of a function.
ghost use Rattle.rules.specs.Figures.{WorkedFigures};

// The definitions give the figures that were worked out by hand.
pub fn figures_hold()
    ensures { WorkedFigures }
{}
