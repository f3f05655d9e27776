// Opening a quorum system, of either kind.
use calls::Refusal;
use quorums::QuorumSystem;
use std::process::Abort;
use std::test::Fail;

// The refusal's number; 0 where the system is opened, with so many servers.
// Kept: the tests' tables have the numbers that the rules give.
pub(crate) fn refusal_of<Q: QuorumSystem>(
    rt: &impl Abort,
    opened: Result<Q, Refusal>,
    n: u8,
) -> Result<u8, Fail> {
    match opened {
        Ok(system) => {
            assert_eq!(rt; system.servers(), n);
            Ok(0)
        }
        Err(refusal) => Ok(u8::from(refusal)),
    }
}
