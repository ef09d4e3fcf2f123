// The checker takes the lines of a log.
ghost use Rattle.command_base.specs.Judging.{line_answer};
ghost use Rattle.std.specs.Prelude.{◌≡◌};

use crate::log_file::{LineFault, TakesLog};
use log_checker::{CheckFault, Checker};

// The answer of a checker to a piece of a log.
fn line_answer(answer: Result<(), CheckFault>) -> Result<(), LineFault>
    ensures { result ≡ line_answer answer }
{
    match answer {
        Ok(()) => Ok(()),
        Err(CheckFault::Refused { line, why }) => Err(LineFault::Refused { line, why }),
        Err(_) => Err(LineFault::NoMemory),
    }
}

impl TakesLog for Checker {
    ghost use Rattle.std.specs.Prelude.{◌≡◌, [], false};
    ghost use Rattle.std.proofs.Common.{inl, refl};
    ghost use Rattle.std.proofs.lemmas.List.Elements.{All-nil};
    ghost use Rattle.proof_laws.specs.State.{start};
    ghost use Rattle.proof_lines.specs.declared.spelling.Spelling.TheVariants.{Plain};
    ghost use Rattle.proof_text.specs.Versions.{header_text};
    ghost use Rattle.log_checker.proofs.Faults.{no_whole_fault, whole_fault_more};
    ghost use Rattle.log_checker.specs.Accepted.{IsCovered, IsEndedProof};
    ghost use Rattle.log_checker.specs.Checking.{StandsFor};
    ghost use Rattle.log_checker.specs.LogFaults.{IsLogFault, IsWholeFault};
    ghost use Rattle.command_base.specs.Judging.{JudgedBy, judged_by};

    ghost Subject = { JudgedBy };

    ghost subject = { judged_by };

    ghost whole = { λ s bytes k why. IsWholeFault s.problem s.vectors bytes k why };

    ghost every = { λ s bytes k why. IsLogFault s.problem s.vectors bytes k why };

    ghost passes = { λ s bytes. IsEndedProof s.problem s.vectors bytes };

    ghost stands = { λ c bytes. StandsFor c bytes };

    ghost unfinished = { λ c. c.finished ≡ false };

    ghost none = { λ s. no_whole_fault s.problem s.vectors [] [] (start s.problem) refl
        (All-nil (IsCovered s.vectors)) (inl (Plain, tt, (header_text Plain, refl))) };

    ghost further = { λ s bytes more k why fault.
        whole_fault_more s.problem s.vectors bytes more k why fault };

    fn feed(&mut self, piece: &[u8]) -> Result<(), LineFault> {
        line_answer(Checker::feed(self, piece))
    }

    fn finish(&mut self) -> Result<(), LineFault> {
        line_answer(Checker::finish(self))
    }
}
