// The law of the protocol: its runs are followed by those of a machine over typed messages, which keeps a
// history of what happened, and what holds of every such history holds of the steps of every run.
#![tactic(auto)]

ghost use Rattle.protocol.specs.Runs.{Law};

// whatever is called, in whatever order: later operations have no lower timestamps, reads are genuine, and
// when all is quiet nothing is open
pub fn law_stands<S, V>() -> u8
    ensures { Law S V }
{
    0
}
