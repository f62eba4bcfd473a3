use rv_terms::{Sum, SumFault};
use std::alloc::{AllocError, AllocFailed};

// Why a sum over paths isn't followed further.
#[derive(Clone, Copy)]
pub(crate) enum PathFault {
    // It would have too many terms.
    Terms,
    // There have been too many steps.
    Steps,
    // All path bits stand in it.
    Paths,
    Mem,
}

impl From<AllocError> for PathFault {
    fn from(_: AllocError) -> Self {
        PathFault::Mem
    }
}

impl From<SumFault> for PathFault {
    fn from(fault: SumFault) -> Self {
        match fault {
            SumFault::TooLong => PathFault::Terms,
            SumFault::Mem => PathFault::Mem,
        }
    }
}

impl From<AllocFailed<Sum>> for PathFault {
    fn from(_: AllocFailed<Sum>) -> Self {
        PathFault::Mem
    }
}

impl From<AllocFailed<u64>> for PathFault {
    fn from(_: AllocFailed<u64>) -> Self {
        PathFault::Mem
    }
}
