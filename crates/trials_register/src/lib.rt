// Tests of a whole register: what it refuses, how much room it needs, and what its servers and clients do.
#![tactic(auto)]

#[cfg(test)]
mod fixture;
#[cfg(test)]
mod garbage;
#[cfg(test)]
mod lending;
#[cfg(test)]
mod opening;
#[cfg(test)]
mod reading_on;
#[cfg(test)]
mod refusals;
#[cfg(test)]
mod rooms;
#[cfg(test)]
mod steps;
#[cfg(test)]
mod writing;
