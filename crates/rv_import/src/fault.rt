ghost use Rattle.std.specs.Prelude.{◌≡◌};
ghost use Rattle.rv_import.specs.declared.fault.CallFault.TheVariants.{Mem};
ghost use Rattle.rv_import.specs.declared.fault.TextFault.TheVariants as text;

use std::alloc::AllocError;
use thiserror::Error;

/// Why a call was not added to a network.
#[derive(Clone, Copy, Debug, PartialEq, Eq, Error)]
pub enum CallFault {
    /// No Clifford and T operations make the gate exactly.
    #[error("no exact form")]
    NoForm,
    /// They are not as many as the gate has, are not in the network, or are not apart.
    #[error("wrong qubits")]
    WrongQubits,
    #[error("too many operations")]
    TooManyOps,
    #[error("out of memory")]
    Mem,
}

impl From<AllocError> for CallFault {
    ghost from_gives = { λ _ fault. fault ≡ Mem };

    fn from(_: AllocError) -> CallFault {
        CallFault::Mem
    }
}

/// Why a text gave no network.
#[derive(Clone, Copy, Debug, PartialEq, Eq, Error)]
pub enum TextFault {
    /// The number, from 1, of the first statement that breaks a rule.
    #[error("statement {0} breaks a rule")]
    Statement(usize),
    /// No statement breaks a rule, but a gate was not added to the network.
    #[error("{0}")]
    Call(CallFault),
    #[error("out of memory")]
    Mem,
}

impl From<AllocError> for TextFault {
    ghost from_gives = { λ _ fault. fault ≡ text.Mem };

    fn from(_: AllocError) -> TextFault {
        TextFault::Mem
    }
}

impl From<CallFault> for TextFault {
    ghost from_gives = { λ call fault. fault ≡ text.Call call };

    fn from(fault: CallFault) -> TextFault {
        TextFault::Call(fault)
    }
}
