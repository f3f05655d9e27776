// Tests of timestamps and values.
#![tactic(auto)]

#[cfg(test)]
mod alike;
#[cfg(test)]
mod packed;
#[cfg(test)]
mod paired;
