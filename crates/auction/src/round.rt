// The data of a round.
use rules::bid::Bid;

// The bids are lent, and the minimums stand by the members' numbers. Whether the round can be divided is found out when
// it is asked. No memory is asked for: the minimums have places for 64 members.
#[derive(Clone, Copy)]
pub struct Round<'a> {
    pub bids: &'a [Bid],
    pub minimums: [u64; 64],
    pub members: usize,
    pub reference: i64,
    pub margin: u64,
}
