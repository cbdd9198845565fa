// The rounds of a package.

// The first opens with the package, the second with a residual.
#[derive(Clone, Copy, PartialEq, Eq, Debug)]
pub enum RoundNumber {
    First,
    Second,
}
