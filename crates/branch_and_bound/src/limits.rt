// What decides when a search stops, and how much it keeps.

// A linear program has at most so many pivots: one that needs more has lost its way.
pub(crate) const MOST_PIVOTS: u64 = 20_000;

// The factors of a leaf are sought from the largest one of the last leaf on, divided by this, if that's at least the other number:
// smaller ones are tried from 1 on.
pub(crate) const TRIED_BELOW: f64 = 4.0;

pub(crate) const LEAST_FIRST_FACTOR: f64 = 8.0;

// What multipliers are scaled by before they are rounded: the denominators that are usual first.
pub(crate) const DENOMINATORS: [u64; 28] = [
    1,
    2,
    3,
    4,
    5,
    6,
    8,
    10,
    12,
    15,
    20,
    24,
    30,
    40,
    60,
    84,
    120,
    180,
    360,
    1_000,
    5_040,
    10_000,
    100_000,
    1_000_000,
    10_000_000,
    100_000_000,
    1_000_000_000,
    10_000_000_000,
];

// So many nodes are visited in one question at most; the work that may be spent ends it long before.
pub(crate) const MOST_NODES: usize = 10_000_000;

// A tree keeps at most so many numbers of its open nodes: 8 bytes each, a quarter of a GB. Past that a node is solved again
// from wherever the relaxation stands.
pub(crate) const MOST_KEPT: usize = 30_000_000;

// A tree begins anew after so many nodes, and again after so many more, as long as its bound is above the root's by no more than so
// many times what a better model lacks: sizes of trees have heavy tails there, and another one may be small (Gomes, Selman, Crato and
// Kautz 2000). By any bound 120 projects took a third longer.
pub(crate) const NODES_OF_ATTEMPTS: [usize; 3] = [300, 600, 1200];

pub(crate) const FLAT: f64 = 12.0;

// A value is whole within this.
pub(crate) const WHOLE: f64 = 1e-5;

// A multiplier or dual value of at most this size is none.
pub(crate) const NO_MULTIPLIER: f64 = 1e-11;

// Bounds are told apart by a quarter of what a better model lacks: finer ones only lead away from where the search is, since
// costs are whole.
pub(crate) const PARTS_OF_A_STEP: f64 = 4.0;

// Without costs bounds are 0 or, where nothing is left, infinite: any step tells these apart.
pub(crate) const STEP_WITHOUT_COSTS: f64 = 1.0;

// Where no model is known a search goes on below a node as long as its bound is within this share of the least open one, or
// within what a better model lacks: flat bounds tell nothing.
pub(crate) const PLUNGE: f64 = 0.02;

// The points of nodes that are less deep than this are rounded, and of the others each of so many visits.
pub(crate) const ROUND_ABOVE: usize = 3;

pub(crate) const ROUND_EACH: u64 = 16;

// From where on a value is rounded up: each gives a point of its own.
pub(crate) const THRESHOLDS: [f64; 4] = [0.02, 0.2, 0.4, 0.6];

// A row or a limit isn't broken where it lacks no more than this.
pub(crate) const NEARLY: f64 = 1e-6;

// Where the least sum is sought, and no proof of it is wanted, the search for a better model than the first may take so many
// times the work of that, and this many passes over rows and columns.
pub(crate) const TIMES_MORE: u64 = 3;

pub(crate) const PASSES_MORE: u64 = 2000;

// What is done at a node beside its linear program, and what rounding takes, is counted as so many passes over rows and columns.
pub(crate) const PASSES_OF_A_VISIT: u64 = 20;

pub(crate) const PASSES_OF_ROUNDING: u64 = 60;

// A question isn't begun where the purse allows fewer passes over rows and columns: a few dozen pivots tell little.
pub(crate) const LEAST_PASSES: u64 = 400;

// Lines of the log above the problem's rows are rows of the relaxation too, if their coefficients sum to no more than this.
pub(crate) const MOST_SIZE_OF_LINE: u128 = 1 << 20;

// Cuts aren't sought where the rows have more numbers than this: each round passes over all of them several times.
pub(crate) const MOST_CUT_ENTRIES: usize = 400_000;

// Nor where those that were made have more terms than this together: 24 bytes each.
pub(crate) const MOST_SIZE_OF_CUTS: usize = 1_000_000;

// So many rounds of so many cuts at most at the root of the first question's tree, where all that cuts can bring is still to be had,
// and of each where programs are large; and of others, which begin with the cuts of those before.
pub(crate) const FIRST_ROUNDS: u32 = 15;

pub(crate) const LATER_ROUNDS: u32 = 4;

pub(crate) const CUTS_OF_A_ROUND: usize = 20;

// The rounds end after this much work, as passes over rows and columns, or as so many programs like the root's where that is more;
// and before cuts have helped, after as much as the tree took so far, so that they cost no more than it.
pub(crate) const PASSES_OF_CUTS: u64 = 20_000;

pub(crate) const ROOTS_OF_CUTS: u64 = 10;

// Where the root's program takes more than this, some hundredths of a second, cuts are sought before anything is split: forty nodes
// take longer than rounds of cuts there.
pub(crate) const LARGE_ROOT: u64 = 20_000_000;

// They end where so many, one after another, raised the bound by less than this part: what comes then is too little.
pub(crate) const LEAST_GAIN: f64 = 1e-4;

pub(crate) const MOST_STALLED: u32 = 2;

// A cut that is exceeded by more than this is slack, and one that is slack in so many solves is dropped.
pub(crate) const SLACK: f64 = 1e-6;

pub(crate) const MOST_IDLE: u32 = 3;

// Before cuts have helped, they are sought only where so many nodes have been split: smaller trees cost less than cuts do.
pub(crate) const NODES_BEFORE_CUTS: usize = 40;

// Cuts help with a question if they close this share of its gap; else they are taken back, since each row costs time at each node:
// a fifth of the gap saves a tenth of the nodes, and takes twice the time at each. They aren't sought any more once they failed in
// so many more questions than they helped with; a tree of few nodes tells nothing.
pub(crate) const LEAST_SHARE: f64 = 0.25;

pub(crate) const MOST_FAILED: u64 = 3;

pub(crate) const FEW_VISITS: u64 = 4;

// ---- walks (walks)

// A walk may take so many passes over rows and columns: a tenth of a second on 3,500 rows.
pub(crate) const PASSES_OF_A_WALK: u64 = 2000;

// The first one is begun after so many times that work. Walks take one part in so many of all work, half of that after each one that
// found nothing, and so on so many times.
pub(crate) const SHARE_OF_WALKS: u64 = 8;

pub(crate) const MOST_HALVINGS: u64 = 10;

// From a model on it takes so many times the work, and this much, to a better one, or it ends: a small problem's walks soon stand
// at the best that they meet.
pub(crate) const TIMES_TO_BETTER: u64 = 4;

pub(crate) const LEAST_TO_BETTER: u64 = 20_000;

// So many changes of a broken row's columns are tried, the best of which is made: long rows have hundreds.
pub(crate) const CHANGES_TRIED: usize = 40;

// Where nothing gets better a broken row weighs more by this part of what it weighed at first. By 1 costs were a twentieth higher.
pub(crate) const RISE: f64 = 0.3;

// Its work ends a walk before so many changes.
pub(crate) const MOST_STEPS: usize = 100_000_000;
