// A run of a register that is told call by call: a read meets a write while one server lies.
#![tactic(auto)]

mod script;
mod stage;
mod words;

use script::script;
use stage::perform;

fn main(rt: HostRuntime) -> anyhow::Result<()> {
    run(&rt)
}

fn run(rt: &HostRuntime) -> anyhow::Result<()> {
    let calls = script(rt.alloc())?;
    perform(rt, &calls)
}
