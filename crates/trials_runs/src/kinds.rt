// The same run with each quorum system, timestamp and value, and with kinds of one's own.
use crate::any_run::plays;
use quorums::QuorumSystem;
use quorums::listed::Listed;
use quorums::sets::ServerSet;
use quorums::threshold::Threshold;
use std::alloc::Global;
use std::process::Abort;
use std::test::Fail;
use third::light::Light;
use third::unanimous::Unanimous;
use third::version::Version;
use timestamps::packed::Packed;
use timestamps::paired::Paired;
use values::price_line::PriceLine;
use values::total::Total;

// Plays runs with both timestamps, each with a total and a price line. Both timestamps are the first of client 0.
fn plays_all<Q: QuorumSystem>(
    rt: &impl Abort,
    heap: Global,
    system: Q,
    needed: u8,
    with_packed: (Total, PriceLine),
    with_paired: (Total, PriceLine),
) -> Result<(), Fail> {
    let packed = Packed::new(64);
    let paired = Paired::new(1, 0).ok_or_else(|| Fail::new("no such timestamp"))?;
    plays(rt, heap, system, needed, packed, with_packed.0)?;
    plays(rt, heap, system, needed, packed, with_packed.1)?;
    plays(rt, heap, system, needed, paired, with_paired.0)?;
    plays(rt, heap, system, needed, paired, with_paired.1)
}

#[test]
fn threshold_system_with_both_timestamps_and_values(rt: HostRuntime) -> Result<(), Fail> {
    plays_all(
        &rt,
        rt.alloc(),
        Threshold::open(4, 1)?,
        3,
        (Total::new(1250), PriceLine::Quoted(2.5)),
        (Total::new(1250), PriceLine::Scratched),
    )
}

// Servers 2 and 3 may both be faulty, so servers 0 and 1 are a quorum.
#[test]
fn listed_system_with_both_timestamps_and_values(rt: HostRuntime) -> Result<(), Fail> {
    plays_all(
        &rt,
        rt.alloc(),
        Listed::open(4, &[ServerSet { mask: 0b1100 }])?,
        2,
        (Total::new(1250), PriceLine::Quoted(f64::NAN)),
        (Total::new(0), PriceLine::Quoted(-0.0)),
    )
}

#[test]
fn kinds_of_ones_own(rt: HostRuntime) -> Result<(), Fail> {
    let system = Unanimous::open(4)?;
    plays(&rt, rt.alloc(), system, 4, Version::new(1), Light::On)?;
    plays(&rt, rt.alloc(), system, 4, Version::new(1), Light::Broken)
}
