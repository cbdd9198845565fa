// The laws of minimums and of how a round is divided, each as the contract of a function.
ghost use Rattle.rules.specs.RoundLaws.{BookBest, CreditsTaken, ExcusedOwesNothing, FirstSound, GivingBest, LevelsInTurn, MarkReached, MarketByPrice};
ghost use Rattle.rules.specs.RoundLaws.{MarketCovers, MinimumsBounded, MinimumsCover, NoMinimumOwesNothing, NonBidders, OfferAllotted, PriceDivides};
ghost use Rattle.rules.specs.RoundLaws.{SecondMinimumsBounded, SecondMinimumsCover, SecondSound, TransfersAddUp};

// The minimums of a first round reach the whole, and those of a second again.
pub fn minimums_cover()
    ensures first { MinimumsCover }
    ensures second { SecondMinimumsCover }
{}

// No minimum passes the whole, in either round.
pub fn minimums_bounded()
    ensures first { MinimumsBounded }
    ensures second { SecondMinimumsBounded }
{}

// An excused member has the minimum 0. Who has it keeps it in the second round, and never falls short.
pub fn excused_owe_nothing()
    ensures no_minimum { NoMinimumOwesNothing }
    ensures excused { ExcusedOwesNothing }
{}

// Somebody always takes the credits.
pub fn credits_taken()
    ensures { CreditsTaken }
{}

// What the laws below ask of a round holds of every first round and of every second.
pub fn rounds_sound()
    ensures first { FirstSound }
    ensures second { SecondSound }
{}

// The mark is the price at which bids of two members or more reach the whole, else the reference price.
pub fn mark_reached()
    ensures { MarkReached }
{}

// Which bids are market bids.
pub fn market_by_price()
    ensures { MarketByPrice }
{}

// Price levels are served from the best on, whole while they fit, and the first that does not by running shares.
pub fn levels_in_turn()
    ensures { LevelsInTurn }
{}

// The market bids cover what goes to bids. It is given out to the last part, and no bid gets more than its size.
pub fn market_covers()
    ensures { MarketCovers }
{}

// No other giving of as many parts to the market bids is worth more.
pub fn giving_best()
    ensures book { BookBest }
    ensures round { GivingBest }
{}

// Market bids above the round price are given whole, and none below it gets a part.
pub fn price_divides()
    ensures { PriceDivides }
{}

// The allotments add up to the offer.
pub fn offer_allotted()
    ensures { OfferAllotted }
{}

// Who falls short gets its shortfall where the offer reaches them all, and never more than its minimum.
pub fn non_bidders_bounded()
    ensures { NonBidders }
{}

// The transfers add up to what goes of the round price to the offer, with its sign.
pub fn transfers_add_up()
    ensures { TransfersAddUp }
{}
