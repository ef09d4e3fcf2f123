// How far a walk back goes.
ghost use Rattle.std.specs.Prelude.{◌≡◌};
ghost use Rattle.cdcl_state.specs.Walking.{is_resolved, said, spare};

use clause_prop::Step;
use scut_base::Lit;

// Which steps a walk resolves, which is to go on to what made their lines force them.
#[derive(Clone, Copy, Debug)]
pub(crate) enum Reach {
    // Those of the trail's highest level, this one, but for the first of them that is marked.
    Level(u64),
    // All that lines force.
    Decisions,
}

impl Reach {
    // Whether the walk resolves the step, where it is marked.
    #[tactic(auto, unfolding(crate::specs::Walking::is_resolved))]
    pub(crate) fn resolves(self, step: &Step) -> bool
        ensures { result ≡ is_resolved self step.now }
    {
        match self {
            Reach::Level(level) => step.level == level,
            Reach::Decisions => step.reason != 0,
        }
    }

    // How many of the marked steps that it resolves the walk leaves at the end.
    #[tactic(auto, unfolding(crate::specs::Walking::spare))]
    pub(crate) fn spare(self) -> u64
        ensures { result ≡ spare self }
    {
        match self {
            Reach::Level(_) => 1,
            Reach::Decisions => 0,
        }
    }

    // What the outcome of the walk says of a step's literal: a clause that is learned has its
    // opposite.
    #[tactic(auto, unfolding(crate::specs::Walking::said))]
    pub(crate) fn said(self, lit: Lit) -> Lit
        ensures { result ≡ said self lit }
    {
        match self {
            Reach::Level(_) => lit.not(),
            Reach::Decisions => lit,
        }
    }
}
