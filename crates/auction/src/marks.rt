// The mark of a round.
ghost use Rattle.std.specs.Prelude.{◌≡◌, ◌==◌, not};
ghost use Rattle.std.specs.List.{list_any};
ghost use Rattle.rules.specs.Rounds.{of_two, reaching};
ghost use Rattle.auction.specs.Orderly.{mark_of};

use crate::whole::ALL_PARTS;
use rules::bid::Bid;

// With bids of two members or more, the price of the bid at which their sizes, added up in rank order, first reach
// 1,000,000; the reference price if they do not, or are of one member.
pub fn mark(bids: &[Bid], reference: i64) -> i64
    ensures { result ≡ mark_of bids.now reference }
{
    if of_two(bids) {
        reached(bids, ALL_PARTS, reference)
    } else {
        reference
    }
}

// Whether the bids come from two members or more.
fn of_two(bids: &[Bid]) -> bool
    ensures { result ≡ of_two bids.now }
{
    match bids {
        [] => false,
        [first, rest @ ..] => of_another(first.member, rest),
    }
}

// Whether a bid is of another member.
fn of_another(member: u8, bids: &[Bid]) -> bool
    ensures { result ≡ list_any (λ b. not (b.member == member)) bids.now }
{
    bids.iter().any(|bid| bid.member != member)
}

// The price of the bid at which the sizes first reach `parts`, or `other`.
fn reached(bids: &[Bid], parts: u64, other: i64) -> i64
    ensures { result ≡ reaching parts bids.now other }
{
    let mut left = parts;
    for bid in bids {
        let size = u64::from(bid.size);
        if left <= size {
            return bid.price;
        }
        left -= size;
    }
    other
}
