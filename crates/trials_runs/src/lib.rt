// Tests of whole runs, with any quorum system, timestamps and values.
#![tactic(auto)]

#[cfg(test)]
mod any_run;
#[cfg(test)]
mod kinds;
#[cfg(test)]
mod refused;
