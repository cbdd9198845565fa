// A round of a package.
ghost use Rattle.std.specs.Prelude.{◌≡◌, ◌≤◌};
ghost use Rattle.auction.specs.Orderly.{Falling};
ghost use Rattle.book.specs.Divisions.{DividedSo};
ghost use Rattle.book.specs.Terms.{round_with, terms_held};
ghost use Rattle.ranked.specs.Table.{listed};
ghost use Rattle.rules.specs.Minimums.{all_parts};
ghost use Rattle.rules.specs.Rounds.{OfMembers};
ghost use Rattle.std.proofs.Props.{props};

use crate::terms::Terms;
use auction::division::Division;
use ranked::table::OrderedTable;
use rules::bid::Bid;

mod asks;
mod bidding;
mod dividing;
mod opening;
mod results;
mod seconds;
mod transfers;

// Its bids stand in rank order. Once it is struck, it holds how its offer is divided.
#[derive(Drop)]
pub(crate) struct BookRound {
    bids: OrderedTable<Bid>,
    terms: Terms,
    offer: u64,
    division: Option<Division>,
    ghost room: { bids.limit ≡ 96 },
    ghost known: { OfMembers terms.members (listed bids) },
    ghost ranked: { Falling (listed bids) },
    ghost within: { offer ≤ all_parts },
    ghost divided: { DividedSo (round_with (terms_held terms) (listed bids)) offer division } by { Prim.hlevel props },
}
