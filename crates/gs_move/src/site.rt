//! Sites.
#![tactic(auto)]

use gs_design::{InstId, NetId};

/// A place of a design that a trial may read and a commit may change: the cell of an instance, or the timing of a net. Instances come
/// before nets, and each of the two are ordered by number.
#[derive(Clone, Copy, Debug, PartialEq, Eq, PartialOrd, Ord)]
pub enum Site {
    /// The cell of an instance.
    Inst(InstId),
    /// The timing of a net.
    Net(NetId),
}

#[cfg(test)]
mod tests {
    use super::*;
    use std::test::Fail;

    #[test]
    fn instances_come_before_nets(rt: HostRuntime) -> Result<(), Fail> {
        assert!(rt; Site::Inst(InstId(7)) < Site::Net(NetId(0)));
        assert!(rt; Site::Inst(InstId(7)) < Site::Inst(InstId(8)));
        assert!(rt; Site::Net(NetId(1)) > Site::Net(NetId(0)));
        assert!(rt; Site::Net(NetId(1)) == Site::Net(NetId(1)));
        Ok(())
    }
}
