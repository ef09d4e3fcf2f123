// Which model is wanted.
use front_set::CostVec;

/// Which model a search wants next.
#[derive(Drop)]
pub enum Wanted {
    /// Any.
    Any,
    /// One whose costs are at most these limits. A limit of `i64::MAX` is none.
    Within(CostVec),
    /// One whose costs are at most these of a model, and differ; relaxations are asked for each objective by itself.
    Better(CostVec),
}
