// What a reading client keeps of the servers' reports, in lent memory, and when its read is done.
#![tactic(auto)]

mod decide;
mod evidence;
pub mod hear;
mod order;
pub mod reports;
