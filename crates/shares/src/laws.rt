// The laws of running shares, and figures: each stands as the contract of a function.
ghost use Rattle.std.specs.Prelude.{◌≡◌, [], ◌∷◌};
ghost use Rattle.shares.specs.Sums.{at};
ghost use Rattle.shares.specs.Shares.{share};
ghost use Rattle.shares.specs.Laws.{DealtNone, DealtRises, DealtWithin, DealtWhole, DealtOfBase};
ghost use Rattle.shares.specs.Laws.{ShareAdds, SharesAddUp, SharesWhole, ShareWithin, ShareBaseless};
ghost use Rattle.shares.specs.Laws.{ShareWeightless, ShareOfNone, ShareOfBase, ShareSame};

// What goes to the first weights, by their sum.
pub fn dealt_laws_hold()
    ensures none { DealtNone }
    ensures rises { DealtRises }
    ensures within { DealtWithin }
    ensures whole { DealtWhole }
    ensures of_base { DealtOfBase }
{}

// What goes to each weight.
pub fn share_laws_hold()
    ensures adds { ShareAdds }
    ensures add_up { SharesAddUp }
    ensures whole { SharesWhole }
    ensures within { ShareWithin }
    ensures baseless { ShareBaseless }
    ensures weightless { ShareWeightless }
    ensures of_none { ShareOfNone }
    ensures of_base { ShareOfBase }
    ensures same { ShareSame }
{}

// Three weights of 300,000 share 500,000 on a base of 900,000; three of 1 share 10 on a base of 3.
pub fn figures_hold()
    ensures three { (share 500000 900000 (at (300000 ∷ 300000 ∷ 300000 ∷ [])) 0 ≡ 166666)
        × (share 500000 900000 (at (300000 ∷ 300000 ∷ 300000 ∷ [])) 1 ≡ 166667)
        × (share 500000 900000 (at (300000 ∷ 300000 ∷ 300000 ∷ [])) 2 ≡ 166667) }
    ensures ten { (share 10 3 (at (1 ∷ 1 ∷ 1 ∷ [])) 0 ≡ 3)
        × (share 10 3 (at (1 ∷ 1 ∷ 1 ∷ [])) 1 ≡ 3)
        × (share 10 3 (at (1 ∷ 1 ∷ 1 ∷ [])) 2 ≡ 4) }
{}
