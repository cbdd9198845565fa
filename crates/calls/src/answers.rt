// What a record answers of its packages and rounds.

// Of a package: the members that it excuses as a set of bits, and the parts of its residual if there was one.
#[derive(Clone, Copy, PartialEq, Eq, Debug)]
pub struct PackageTerms {
    pub margin: u64,
    pub reference: i64,
    pub excused: u64,
    pub residual: Option<u32>,
}

// Of a round, open or struck: the parts that it offers as last divided, its margin and its reference price.
#[derive(Clone, Copy, PartialEq, Eq, Debug)]
pub struct RoundTerms {
    pub struck: bool,
    pub offer: u64,
    pub margin: u64,
    pub reference: i64,
}

// Of a struck round.
#[derive(Clone, Copy, PartialEq, Eq, Debug)]
pub struct RoundPrices {
    pub mark: i64,
    pub price: i64,
}

// Of a bid in a struck round: whether it is a market bid, and the parts that it is given.
#[derive(Clone, Copy, PartialEq, Eq, Debug)]
pub struct BidResult {
    pub is_market: bool,
    pub giving: u64,
}

// Of a member in a struck round: what its market bids lack of its minimum, all its parts, those of them that are for its
// shortfall, what it pays, and its fraction in millionths.
#[derive(Clone, Copy, PartialEq, Eq, Debug)]
pub struct MemberResult {
    pub shortfall: u64,
    pub parts: u64,
    pub shortfall_parts: u64,
    pub transfer: i64,
    pub fraction: u64,
}

// Of a member over all packages: its fraction in millionths, and the two parts of its contribution.
#[derive(Clone, Copy, PartialEq, Eq, Debug)]
pub struct MemberTotal {
    pub fraction: u64,
    pub junior: u64,
    pub senior: u64,
}
