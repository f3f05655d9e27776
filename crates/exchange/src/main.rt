// One value through one server: a write, a read, and a second write while the server listens for the
// reader. Each action is told in a line.
#![tactic(auto)]

mod exchange;

use exchange::{Exchange, READER, WRITER, from_client};
use network::message::Kind;
use values::total::Total;

fn main(rt: HostRuntime) -> anyhow::Result<()> {
    run(&rt)
}

fn run(rt: &HostRuntime) -> anyhow::Result<()> {
    let mut exchange = Exchange::open(rt)?;
    exchange.post(rt, from_client(WRITER, Kind::Query, 1))?;
    exchange.look_at(rt, 0)?;
    exchange.write(rt, 1, 0, Total::new(1250))?;
    exchange.post(rt, from_client(READER, Kind::Read, 1))?;
    exchange.serve(rt, 0)?;
    exchange.post(rt, from_client(WRITER, Kind::Query, 2))?;
    exchange.write(rt, 2, 1, Total::new(1500))?;
    let seen = exchange.deliver(rt, 1)?;
    exchange.post(rt, from_client(READER, Kind::Stop, 1))?;
    exchange.serve(rt, 1)?;
    exchange.deliver(rt, 0)?;
    exchange.tell_end(rt, seen)
}
