// When a search restarts, and when it lets go of learned clauses. The format of the log fixes where reductions may
// stand, so that a checker knows the places, and with them 40 and 1000: the places lie ever farther apart, and the last
// one is past what a run can learn. Restarts leave no line in the log; 50 of them, at 100 times the powers of two, give
// a call a number of turns that is bounded.
ghost use Rattle.std.specs.Prelude.{◌≡◌, ◌↔◌, ◌+◌, ◌-◌, ◌*◌, ◌^◌, ◌<◌, ◌≤◌, IsTrue};

/// How often a call of `solve` restarts at most.
pub const RESTARTS: u32 = 50;

/// How many reductions a run makes at most.
pub const REDUCTIONS: u32 = 40;

/// Whether a restart is due, where so many clauses were learned since the last one, and so many restarts were made in
/// the call: the k-th comes at 100·2^k clauses, and there are 50 at most.
pub fn restart_due(since: u64, done: u32) -> bool
    requires { done ≤ 50 }
    ensures { IsTrue result ↔ ((done < 50) × (since ≡ 100 * 2 ^ (done + 1))) }
{
    done < RESTARTS && since == 100 << (done + 1)
}

/// Whether a reduction is due directly after a learned line, where so many clauses were learned in
/// the run, and so many reductions were made in it: the k-th comes after clause 1000·(2^k − 1), and
/// there are 40 at most.
pub fn reduce_due(learned: u64, done: u32) -> bool
    requires { done ≤ 40 }
    ensures { IsTrue result ↔ ((done < 40) × (learned ≡ 1000 * (2 ^ (done + 1) - 1))) }
{
    done < REDUCTIONS && learned == 1000 * ((1 << (done + 1)) - 1)
}
