// Tests of sets of servers and of quorum systems.
#![tactic(auto)]

#[cfg(test)]
mod listed;
#[cfg(test)]
mod opening;
#[cfg(test)]
mod sets;
#[cfg(test)]
mod threshold;
