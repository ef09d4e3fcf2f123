// What may be asked of an oracle.
ghost use Rattle.std.specs.Prelude.{◌≡◌, false, IfOk, IfErr, OnOk};
ghost use Rattle.scut_base.specs.Faults.{Rose};
ghost use Rattle.proof_rules.specs.Recording.{KeepsRecorder};
ghost use Rattle.oracle.specs.Solving.{AddsSearchLines, AreAssumptions, ImpliesCoreAlone, AreEarned, HasFault, IsAnswer};
ghost use Rattle.oracle.specs.Solving.{AnswersWithin, IsOrderly, IsWithin, MayBeAsked, Reaches, lesser};

use crate::{Answer, OracleFault};
use proof_rules::Recorder;
use scut_base::Lit;

/// A recorder that answers whether literals can be true together, and proves each answer by lines. It holds the problem's
/// rows and every live clause.
pub trait Oracle: Recorder {
    /// Whether these literals, of distinct variables, can be true together. The lines that it adds are learned clauses,
    /// reductions that name learned lines alone, and at most one implied clause, that of a core. `Spent` where the limit
    /// of learned clauses is reached and one more would be learned; then it may be asked again. After `Failed`, `Full` and `NoMemory` it
    /// is broken.
    fn solve(&mut self, assumptions: &[Lit]) -> Result<Answer, OracleFault>
        requires whole { (Self.seen self.old).broken ≡ false }
        requires unended { Reaches (Self.seen self.old).problem (Self.seen self.old).lines
            (λ s. s.ended ≡ false) }
        requires assumptions { Reaches (Self.seen self.old).problem (Self.seen self.old).lines
            (λ s. AreAssumptions s.vars assumptions.now) }
        requires earned { AreEarned (Self.seen self.old).problem (Self.seen self.old).lines }
        requires within { IsWithin (Self.seen self.old).limit (Self.seen self.old).problem
            (Self.seen self.old).lines }
        ensures answer { IfOk result
            (IsAnswer (Self.seen self.old).problem (Self.seen self.new).lines assumptions.now) }
        ensures fault { IfErr result (λ f. HasFault f (Self.seen self.old).limit
            (Self.seen self.old).problem (Self.seen self.new).lines
            (Rose (Self.seen self.old).faults (Self.seen self.new).faults)
            (Self.seen self.new).broken) }
        ensures whole { OnOk result ((Self.seen self.new).broken ≡ false) }
        ensures lines { AddsSearchLines (Self.seen self.old).problem
            (Self.seen self.old).lines (Self.seen self.new).lines }
        ensures implied { ImpliesCoreAlone (Self.seen self.old).lines
            (Self.seen self.new).lines result }
        ensures earned { IsOrderly result
            → AreEarned (Self.seen self.old).problem (Self.seen self.new).lines }
        ensures within { IsWithin (Self.seen self.old).limit (Self.seen self.old).problem
            (Self.seen self.new).lines }
        ensures keeps { KeepsRecorder (Self.seen self.old) (Self.seen self.new) };

    /// The same where no more than `most` clauses may be learned from the first line on, if that is less than the oracle's
    /// limit: `Spent` where so many are learned and one more would be. Then it may be asked again, by `solve` too.
    fn solve_limited(&mut self, assumptions: &[Lit], most: u64) -> Result<Answer, OracleFault>
        requires { MayBeAsked (Self.seen self.old) (lesser (Self.seen self.old).limit most) assumptions.now }
        ensures { AnswersWithin (Self.seen self.old) (Self.seen self.new)
            (lesser (Self.seen self.old).limit most) assumptions.now result };
}
