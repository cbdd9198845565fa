// A member's fractions, as they are worked out from one another.

// Those of the rounds of a package: of the first alone, or of both, with a residual of so many parts between them.
#[derive(Clone, Copy, PartialEq, Eq, Debug)]
pub enum PackageFractions {
    FirstOnly(u64),
    WithResidual {
        first: u64,
        residual: u64,
        second: u64,
    },
}

// A package in a total: it weighs as much as its margin.
#[derive(Clone, Copy, PartialEq, Eq, Debug)]
pub struct Weighed {
    pub margin: u64,
    pub fraction: u64,
}

// The two parts of a contribution.
#[derive(Clone, Copy, PartialEq, Eq, Debug)]
pub struct ContributionParts {
    pub junior: u64,
    pub senior: u64,
}
