// What models of an instance and of its normal form have to do with each other.
ghost use Rattle.std.specs.Prelude.{◌≡◌, List, Bool, take};
ghost use Rattle.front_set.specs.Vector.{IsBelow};
ghost use Rattle.instance.specs.Shape.{InstanceValue, IsWithinLimits};
ghost use Rattle.instance.specs.Meaning.{IsModel, costs_of};
ghost use Rattle.instance.specs.ParetoFront.{problem_vector};
ghost use Rattle.pb_lin.specs.Problem.{ProblemValue, IsProblemModel, problem_costs};
ghost use Rattle.instance_normal.specs.NormalForm.{IsNormalFormOf};
ghost use Rattle.instance_normal.specs.Tightened.{tightened};
ghost use Rattle.instance_normal.specs.Within.{NormalFormsAreProblems};

/// Law: each model of an instance extends to a model of its normal form with equal costs.
pub fn models_extend()
    ensures { (i : InstanceValue) (p : ProblemValue) → IsWithinLimits i → IsNormalFormOf i p
        → (a : List Bool) → IsModel i a
        → IsProblemModel p (tightened i a)
        × (problem_costs p (tightened i a) ≡ problem_vector i (costs_of i a)) }
{}

/// Law: each model of the normal form, cut to the instance's variables, is a model of the instance that
/// costs no more.
pub fn models_restrict()
    ensures { (i : InstanceValue) (p : ProblemValue) → IsWithinLimits i → IsNormalFormOf i p
        → (b : List Bool) → IsProblemModel p b
        → IsModel i (take i.vars b)
        × IsBelow (problem_vector i (costs_of i (take i.vars b))) (problem_costs p b) }
{}

/// Law: an instance has one normal form.
pub fn one_normal_form()
    ensures { (i : InstanceValue) (p q : ProblemValue) → IsNormalFormOf i p → IsNormalFormOf i q
        → p ≡ q }
{}

/// Law: the normal form of an instance is a problem.
pub fn normal_form_is_problem()
    ensures { NormalFormsAreProblems }
{}
