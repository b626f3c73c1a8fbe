//! Demand and supply by tick, the volume at which they clear, the crossing range, and why awards are best:
//! definitions and theorems over any list of orders and any highest tick. Each function's contract is a theorem.
#![tactic(auto)]

ghost use Rattle.curves.specs.Curves.{VolumeIsGreatest};
ghost use Rattle.curves.specs.Crossing.{CrossingExists, CrossingIsInterval, CrossingClears, CrossingEnds, CrossingMiddle, HalfRoundsUp};
ghost use Rattle.curves.specs.Orders.{OrdersMakeCurves};
ghost use Rattle.curves.specs.Allotments.{AwardIsBest, AwardsAgree, AwardKeepsLimits};
ghost use Rattle.curves.specs.Filling.{AwardOfSharing};
ghost use Rattle.curves.specs.Pricing.{PriceOfRule};

/// The demand of any list of orders falls from tick to tick, its supply rises, and past the highest tick both are 0.
pub fn orders_make_curves()
    ensures { OrdersMakeCurves }
{}

/// V is reached at a tick, and no tick has a greater executable volume.
pub fn volume_is_greatest()
    ensures { VolumeIsGreatest }
{}

/// The crossing range is not empty, is an interval, and every tick in it has executable volume V.
pub fn crossing_range()
    ensures exists { CrossingExists }
    ensures interval { CrossingIsInterval }
    ensures clears { CrossingClears }
{}

/// The crossing range lies between its ends, and half their sum, a half rounded up, is in it.
pub fn crossing_ends()
    ensures ends { CrossingEnds }
    ensures middle { CrossingMiddle }
    ensures half { HalfRoundsUp }
{}

/// Whatever lawful rule gives the price of orders whose V is above 0, it is a tick with executable volume V.
pub fn price_of_rule()
    ensures { PriceOfRule }
{}

/// Where all limits are ticks, every award (V to each side, best limits first) is an allotment; no allotment has a greater
/// surplus, and none with equal surplus a greater volume.
pub fn award_is_best()
    ensures { AwardIsBest }
{}

/// Where all limits are ticks, two awards of the same orders agree in volume and surplus, however they share among equals.
pub fn awards_agree()
    ensures { AwardsAgree }
{}

/// At every tick whose executable volume is V, each order that an award gives anything keeps its limit.
pub fn award_keeps_limits()
    ensures { AwardKeepsLimits }
{}

/// Where all limits are ticks, groups of equal limits that are filled from the best on, with any lawful sharing rule, are an
/// award.
pub fn award_of_sharing()
    ensures { AwardOfSharing }
{}
