// Plans of a job with a fleet, and the promise about searches for them. The definitions stand in specs/, each theorem in the contract of
// a function that does nothing else.
#![tactic(auto)]

ghost use Rattle.plans.specs.Theorems.{JobsAreTasks, CollisionsAreMutual, PlansHaveOneSum, InstanceIsTrueToWords, InstanceKeepsTerms, PlansAreNumbered, PlansArePlaced};
ghost use Rattle.plans.specs.Theorems.{MakespansCarryOver, BoundsCarryOver, LeastSumsCarryOver, NoPlanCarriesOver, LawfulKeepsThePromise, EveryRunKeepsThePromise};

// A job with a fleet of as many sleds is a task. Of two sleds that collide either may be told first, and each plan has one sum.
pub fn jobs_are_tasks()
    ensures terms { JobsAreTasks }
    ensures either { CollisionsAreMutual }
    ensures sums { PlansHaveOneSum }
{}

// The constraint tree of a task goes by its floor, cells and offsets, and keeps all that the tree's theorems ask for.
pub fn trees_are_of_tasks()
    ensures words { InstanceIsTrueToWords }
    ensures terms { InstanceKeepsTerms }
{}

// The tree's plans are the task's, so what it says of them holds of the task.
pub fn plans_are_of_tasks()
    ensures numbered { PlansAreNumbered }
    ensures placed { PlansArePlaced }
    ensures bounds { BoundsCarryOver }
    ensures least { LeastSumsCarryOver }
    ensures none { NoPlanCarriesOver }
{}

// And they last as long.
pub fn makespans_are_of_tasks()
    ensures { MakespansCarryOver }
{}

// Whatever answers by the law of searches keeps the promise, and so does the tree itself, whatever the calls.
pub fn promise_is_kept()
    ensures lawful { LawfulKeepsThePromise }
    ensures runs { EveryRunKeepsThePromise }
{}
