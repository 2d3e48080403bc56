//! What is wrong with the text of a proof.

use client_lines::LineFault;
use no_memory::NoMemory;
use std::alloc::{AllocError, AllocFailed};
use thiserror::Error;

/// Why no proof is read.
#[derive(Clone, Copy, Debug, PartialEq, Eq, Error)]
pub enum ProofFault {
    /// The text does not begin with the text of a proof, or with that of one
    /// which names what is not there.
    #[error("not understood")]
    NotUnderstood,
    /// Memory was wanted.
    #[error("no memory")]
    Memory,
}

impl From<NoMemory> for ProofFault {
    ghost use Rattle.std.specs.Prelude.{◌≡◌};
    ghost use Rattle.proof_texts.specs.declared.faults.ProofFault.TheVariants.{Memory};

    ghost from_gives = { λ _ fault. fault ≡ Memory };

    fn from(_refused: NoMemory) -> ProofFault {
        ProofFault::Memory
    }
}

impl From<AllocError> for ProofFault {
    ghost use Rattle.std.specs.Prelude.{◌≡◌};
    ghost use Rattle.proof_texts.specs.declared.faults.ProofFault.TheVariants.{Memory};

    ghost from_gives = { λ _ fault. fault ≡ Memory };

    fn from(_refused: AllocError) -> ProofFault {
        ProofFault::Memory
    }
}

impl<T: Drop> From<AllocFailed<T>> for ProofFault {
    ghost use Rattle.std.specs.Prelude.{◌≡◌};
    ghost use Rattle.proof_texts.specs.declared.faults.ProofFault.TheVariants.{Memory};

    ghost from_gives = { λ _ fault. fault ≡ Memory };

    fn from(_refused: AllocFailed<T>) -> ProofFault {
        ProofFault::Memory
    }
}

impl From<LineFault> for ProofFault {
    ghost use Rattle.std.specs.Prelude.{◌≡◌};
    ghost use Rattle.proof_texts.specs.Lines.{fault_of};

    ghost from_gives = { λ fault told. told ≡ fault_of fault };

    fn from(fault: LineFault) -> ProofFault {
        match fault {
            LineFault::Bad { .. } => ProofFault::NotUnderstood,
            LineFault::Memory => ProofFault::Memory,
        }
    }
}
