// Laws of representatives.
ghost use Rattle.representatives.specs.Laws.{BoundedModelServes, EndedLogListsAll, FrontIsServedExactly, NoFaultWhereServing, OneBoundedProblem, OneRepsFault};

/// Law: a model of the bounded problem, cut to the instance's variables, serves the vector and isn't listed.
pub fn bounded_model_serves()
    ensures { BoundedModelServes }
{}

/// Law: where an ended proof over the bounded problem logs nothing, each model that serves the vector is listed.
pub fn ended_log_lists_all()
    ensures { EndedLogListsAll }
{}

/// Law: a problem, a vector and a list of models have one bounded problem at most.
pub fn one_bounded_problem()
    ensures { OneBoundedProblem }
{}

/// Law: a model that serves a vector of the front has exactly these costs.
pub fn serving_front_costs()
    ensures { FrontIsServedExactly }
{}

/// Law: nothing is wrong with different models that serve the vector, in the right number.
pub fn no_fault_where_serving()
    ensures { NoFaultWhereServing }
{}

/// Law: one thing at most is wrong first with the models of an entry.
pub fn one_reps_fault()
    ensures { OneRepsFault }
{}
