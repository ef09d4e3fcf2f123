// Why an oracle doesn't answer.
use proof_rules::RecordFault;
use thiserror::Error;

/// Why there is no answer. After all but `Spent` the oracle is broken.
#[derive(Clone, Copy, Debug, PartialEq, Eq, Error)]
pub enum OracleFault {
    /// So many clauses were learned, which is the limit, and one more would have been.
    #[error("all clauses that may be learned were learned")]
    Spent { learned: u64 },
    /// What keeps the proof failed; its count of faults has risen.
    #[error("the proof couldn't be written")]
    Failed,
    /// There are 2^61 lines, and one more was to be added.
    #[error("the proof is full")]
    Full,
    /// Memory was refused.
    #[error("memory was refused")]
    NoMemory,
}

impl From<RecordFault> for OracleFault {
    ghost use Rattle.oracle.specs.Solving.{fault_of_recording};
    ghost use Rattle.std.specs.Prelude.{◌≡◌};

    ghost from_gives = { λ fault f. f ≡ fault_of_recording fault };

    fn from(fault: RecordFault) -> OracleFault {
        match fault {
            RecordFault::Failed => OracleFault::Failed,
            RecordFault::Full => OracleFault::Full,
            RecordFault::NoMemory => OracleFault::NoMemory,
        }
    }
}

impl From<scut_base::NoMemory> for OracleFault {
    ghost use Rattle.std.specs.Prelude.{◌≡◌};
    ghost use Rattle.oracle.specs.declared.fault.OracleFault.TheVariants.{NoMemory};

    ghost from_gives = { λ _ f. f ≡ NoMemory };

    fn from(_: scut_base::NoMemory) -> OracleFault {
        OracleFault::NoMemory
    }
}
