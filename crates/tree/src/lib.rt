// The constraint tree and what is proved of it. The definitions stand in specs/, each theorem in the contract of a function that does
// nothing else.
#![tactic(auto)]

ghost use Rattle.tree.specs.Theorems.{CostIsLeast, ChoiceIsFirst, ChoiceIsSettled, PlannerKeepsTerms, ConflictIsFirst, ConflictIsSettled, CheapestIsLowest, CheapestIsSettled, ReplansOne, NodesDescend, NodesStay};
ghost use Rattle.tree.specs.Theorems.{BoundsNeverExceedAPlan, BoundsNeverFall, SolvedIsLeastSum, NoneMeansNoPlan, SolvedSumsAgree, SearchEnds, TurnsCount, LargerLimitSame, RunsAreLawful};

// A route costs what it should, and the choice by enumeration is the first route of least cost.
pub fn routes_are_chosen()
    ensures cost { CostIsLeast }
    ensures first { ChoiceIsFirst }
    ensures settled { ChoiceIsSettled }
    ensures terms { PlannerKeepsTerms }
{}

// The first conflict comes before all others.
pub fn conflicts_are_first()
    ensures first { ConflictIsFirst }
    ensures settled { ConflictIsSettled }
{}

// The cheapest open node, and how nodes hang together.
pub fn nodes_are_of_the_tree()
    ensures lowest { CheapestIsLowest }
    ensures settled { CheapestIsSettled }
    ensures replans { ReplansOne }
    ensures descend { NodesDescend }
    ensures stay { NodesStay }
{}

// Bounds are lower bounds and never fall, a solution has the least sum, and none is said only without a plan.
pub fn bounds_and_verdicts_hold()
    ensures bounds { BoundsNeverExceedAPlan }
    ensures later { BoundsNeverFall }
    ensures solved { SolvedIsLeastSum }
    ensures none { NoneMeansNoPlan }
    ensures agree { SolvedSumsAgree }
{}

// The search ends, and a larger limit changes nothing but when it is full.
pub fn searches_end()
    ensures ends { SearchEnds }
    ensures count { TurnsCount }
    ensures limits { LargerLimitSame }
{}

// All answers to a list of calls together keep the law of searches.
pub fn runs_are_lawful()
    ensures { RunsAreLawful }
{}
