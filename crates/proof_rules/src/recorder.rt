// Who keeps a proof, line by line.
ghost use Rattle.std.specs.Prelude.{◌≡◌, ◌↔◌, ◌^◌, ◌++◌, ◌∷◌, [], true, false, length, All, IfOk, OnOk, OnErr, IsErrOf};
ghost use Rattle.scut_base.specs.Faults.{Rose};
ghost use Rattle.proof_laws.specs.WellFormed.{IsWellFormed};
ghost use Rattle.proof_laws.specs.Replay.{IsReplay};
ghost use Rattle.proof_rules.specs.Recording.{Snapshot, KeepsRecorder, MayBeAdded, IsNextId};

use crate::ProofState;
use proof_laws::Line;
use scut_base::NoMemory;
use thiserror::Error;

/// Why a line wasn't recorded.
#[derive(Clone, Copy, Debug, PartialEq, Eq, Error)]
pub enum RecordFault {
    /// What keeps the proof failed; its count of faults has risen.
    #[error("the proof couldn't be written")]
    Failed,
    /// There are 2^61 lines.
    #[error("the proof is full")]
    Full,
    /// Memory was refused.
    #[error("memory was refused")]
    NoMemory,
}

impl From<NoMemory> for RecordFault {
    ghost use Rattle.std.specs.Prelude.{◌≡◌};
    ghost use Rattle.proof_rules.specs.declared.recorder.RecordFault.TheVariants.{NoMemory};

    ghost from_gives = { λ _ f. f ≡ NoMemory };

    fn from(_: NoMemory) -> RecordFault {
        RecordFault::NoMemory
    }
}

/// Keeps the lines of a proof over one problem, each legal where it stands.
pub trait Recorder {
    /// What can be seen of it.
    ghost seen: { Self → Snapshot };

    /// Records a line that is legal, or that is refused for the number of lines alone, and answers the
    /// first id that it makes, if it makes one. `Full` exactly where there are 2^61 lines, and then
    /// nothing has changed; `Failed` only where the count of faults rose; `NoMemory` where memory was
    /// refused. After these two the lines are as before, and the recorder is broken.
    fn add_line(&mut self, line: &Line) -> Result<u64, RecordFault>
        requires formed { IsWellFormed line.now }
        requires legal { MayBeAdded (seen self.old).problem (seen self.old).lines line.now }
        requires whole { (seen self.old).broken ≡ false }
        ensures added { OnOk result ((seen self.new).lines
            ≡ (seen self.old).lines ++ line.now ∷ []) }
        ensures id { IfOk result (IsNextId (seen self.old).problem (seen self.old).lines) }
        ensures whole { OnOk result ((seen self.new).broken ≡ false) }
        ensures kept { OnErr result ((seen self.new).lines ≡ (seen self.old).lines) }
        ensures full { IsErrOf result RecordFault.Full ↔ (length (seen self.old).lines ≡ 2 ^ 61) }
        ensures full_same { IsErrOf result RecordFault.Full → seen self.new ≡ seen self.old }
        ensures failed { IsErrOf result RecordFault.Failed
            → Rose (seen self.old).faults (seen self.new).faults }
        ensures failed_broken { IsErrOf result RecordFault.Failed → (seen self.new).broken ≡ true }
        ensures short_broken { IsErrOf result RecordFault.NoMemory → (seen self.new).broken ≡ true }
        ensures keeps { KeepsRecorder (seen self.old) (seen self.new) };

    /// The state that the lines reach. Each of them is a line that a log can spell.
    fn state(&self) -> &ProofState
        ensures replays { IsReplay (seen self.now).problem (seen self.now).lines result.now }
        ensures formed { All IsWellFormed (seen self.now).lines };
}
