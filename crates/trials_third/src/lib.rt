// Tests of kinds of one's own, and of functions that work with any kinds.
#![tactic(auto)]

#[cfg(test)]
mod any_kinds;
#[cfg(test)]
mod own_kinds;
