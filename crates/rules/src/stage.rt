// The stages of a record.

#[derive(Clone, Copy, PartialEq, Eq, Debug)]
pub enum Stage {
    Roll,
    Auction,
    Settled,
}
