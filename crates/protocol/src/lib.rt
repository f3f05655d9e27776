// The protocol of the register, as definitions: specs/ has them, and contracts of other crates cite them.
#![tactic(auto)]
