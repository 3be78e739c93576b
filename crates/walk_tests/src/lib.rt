// Tests of the walk: first routes and route counts on small floors.
#![tactic(auto)]

#[cfg(test)]
mod closed;
#[cfg(test)]
mod counts;
#[cfg(test)]
mod routes;
