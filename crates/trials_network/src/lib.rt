// Tests of messages and of the network that holds them.
#![tactic(auto)]

#[cfg(test)]
mod tests;
