// The worked examples hold, and fleets of fleets answer as they should.
#![tactic(auto)]

ghost use Rattle.std.specs.List.{AllByRecursion};
ghost use Rattle.trials.specs.Trials.{trials, Holds, SearchesKeepTerms, KeepsTerms};

#[cfg(test)]
mod tests;

// The table of worked examples, proved of the definitions; and the theorems on trees speak of its searches, as of all of their kind.
pub fn trials_hold()
    ensures each { AllByRecursion Holds trials }
    ensures terms { SearchesKeepTerms }
    ensures keep { AllByRecursion KeepsTerms trials }
{}
