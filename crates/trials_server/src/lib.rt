// Tests of one server.
#![tactic(auto)]

#[cfg(test)]
mod fixture;
#[cfg(test)]
mod kinds;
#[cfg(test)]
mod refusals;
