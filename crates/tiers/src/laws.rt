// The laws of piles and tiers: each stands as the contract of a function.
ghost use Rattle.tiers.specs.Charging.{in_turn, pro_rata};
ghost use Rattle.tiers.specs.Figures.{WorkedCharges, WorkedTiers, WorkedEdge};
ghost use Rattle.tiers.specs.Laws.{AgainATier, Waterfall, ToldOnce, ChargeWithin, ChargesWhole, InTurnOrder};
ghost use Rattle.tiers.specs.Laws.{OwnPileBears, OwnChargeIs, JuniorsFirst};

// Of every pile, whichever accounts its tiers charge.
pub fn pile_laws_hold()
    ensures again { AgainATier }
    ensures waterfall { Waterfall }
    ensures told { ToldOnce }
{}

// Of charging in turn and pro rata.
pub fn charging_laws_hold()
    ensures in_turn_within { ChargeWithin in_turn }
    ensures in_turn_whole { ChargesWhole in_turn }
    ensures in_turn_order { InTurnOrder }
    ensures pro_rata_within { ChargeWithin pro_rata }
    ensures pro_rata_whole { ChargesWhole pro_rata }
{}

// Of our own pile.
pub fn own_pile_laws_hold()
    ensures bears { OwnPileBears }
    ensures charge { OwnChargeIs }
    ensures juniors_first { JuniorsFirst }
{}

// The figures of the worked default.
pub fn figures_hold()
    ensures charges { WorkedCharges }
    ensures by_tier { WorkedTiers }
    ensures edge { WorkedEdge }
{}
