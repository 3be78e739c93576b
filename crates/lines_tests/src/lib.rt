// Tests of lines: a report, a refusal, and kinds of the tests' own.
#![tactic(auto)]

#[cfg(test)]
mod kinds;
