// A log file, read in pieces, judged, and its lines kept.
ghost use Rattle.std.specs.Prelude.{IfErr, IfOk};
ghost use Rattle.instance.specs.ParetoFront.{AreProblemVectors};
ghost use Rattle.log_checker.specs.Accepted.{problem_vectors};
ghost use Rattle.command_base.specs.Stops.{IsLogStop};
ghost use Rattle.command_base.specs.Views.{OnlyReads};
ghost use Rattle.command_trim.specs.Keeping.{AreFew, HoldsProof, every_by, whole_by};

use crate::keeping::Keeper;
use command_base::{LogStop, take_log};
use front_set::{CostVec, Entry};
use instance::Instance;
use log_checker::problem_vectors;
use pb_lin::PbProblem;
use proof_laws::Line;
use scut_base::{Items, Shelf};
use std::alloc::Global;

/// The lines of a log file that is an ended proof over the problem, whose logged vectors the entries cover; else its first
/// line that is refused, or that the file is too large. It reads no further than that line.
pub(crate) fn proved_lines<H: Shelf>(
    alloc: Global,
    inst: &Instance,
    entries: &[Entry],
    problem: &PbProblem,
    log: &str,
    shelf: &mut H,
) -> Result<Items<Line>, LogStop>
    requires entries { AreProblemVectors inst.now entries.now }
    ensures proof { IfOk result (HoldsProof (H.world shelf.old).files log.now (record {
      problem = problem.now;
      vectors = problem_vectors inst.now entries.now;
    })) }
    ensures few { IfOk result (AreFew problem.now) }
    ensures stop { IfErr result (λ stop. IsLogStop (whole_by (record {
      problem = problem.now;
      vectors = problem_vectors inst.now entries.now;
    }))
        (every_by (record {
          problem = problem.now;
          vectors = problem_vectors inst.now entries.now;
        })) log.now stop
        (H.world shelf.old).files (H.world shelf.old).faults (H.world shelf.new).faults) }
    ensures only_reads { OnlyReads (H.world shelf.old) (H.world shelf.new) }
{
    let vectors = problem_vectors(alloc, inst, entries)?;
    kept_lines(alloc, problem, vectors.as_slice(), log, shelf)
}

// The same over the vectors of the entries. They are lent, since to own them past more ways out takes long to prove.
fn kept_lines<H: Shelf>(
    alloc: Global,
    problem: &PbProblem,
    vectors: &[CostVec],
    log: &str,
    shelf: &mut H,
) -> Result<Items<Line>, LogStop>
    ensures proof { IfOk result (HoldsProof (H.world shelf.old).files log.now (record {
      problem = problem.now;
      vectors = vectors.now;
    })) }
    ensures few { IfOk result (AreFew problem.now) }
    ensures stop { IfErr result (λ stop. IsLogStop (whole_by (record {
      problem = problem.now;
      vectors = vectors.now;
    }))
        (every_by (record {
          problem = problem.now;
          vectors = vectors.now;
        })) log.now stop
        (H.world shelf.old).files (H.world shelf.old).faults (H.world shelf.new).faults) }
    ensures only_reads { OnlyReads (H.world shelf.old) (H.world shelf.new) }
{
    let mut keeper = Keeper::new(alloc, problem, vectors)?;
    take_log(alloc, &mut keeper, log, shelf)?;
    Ok(keeper.into_lines())
}
