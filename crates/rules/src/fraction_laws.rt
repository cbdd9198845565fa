// The laws of fractions and of the two parts of a contribution, each as the contract of a function.
ghost use Rattle.rules.specs.FractionLaws.{FractionsBounded, NoShortfallNoFraction, PartsMakeContribution};

// No fraction passes one: of a round, of a package, in total.
pub fn fractions_bounded()
    ensures { FractionsBounded }
{}

// The junior and the senior part make the contribution.
pub fn parts_make_contribution()
    ensures { PartsMakeContribution }
{}

// Who has no shortfall in any round has no fraction and no junior part.
pub fn no_shortfall_no_fraction()
    ensures { NoShortfallNoFraction }
{}
