// Why a package refuses what is asked of it.

// Why a round takes no bid.
#[derive(Clone, Copy, PartialEq, Eq, Debug)]
pub enum BidError {
    Struck,
    NoRoom,
    NoMember,
}

// Why no parts can be cut off.
#[derive(Clone, Copy, PartialEq, Eq, Debug)]
pub enum CutError {
    OutsideLimits,
    NotStruck,
    CutAlready,
}

// The round is struck already.
#[derive(Clone, Copy, PartialEq, Eq, Debug)]
pub struct AlreadyStruck;

// The members have no minimums.
#[derive(Clone, Copy, PartialEq, Eq, Debug)]
pub struct NoMinimums;
