// What holds of every front.
ghost use Rattle.std.specs.Prelude.{◌≡◌, ◌↔◌, List, [], Bool};
ghost use Rattle.front_set.specs.declared.entry.Entry.{Entry};
ghost use Rattle.instance.specs.Shape.{InstanceValue};
ghost use Rattle.instance.specs.Meaning.{IsModel};
ghost use Rattle.instance.specs.ParetoFront.{IsFront};

/// Law: a front is empty exactly where the instance has no model.
pub fn empty_front()
    ensures { (i : InstanceValue) (entries : List Entry)
        → IsFront i entries → ((entries ≡ []) ↔ ((a : List Bool) → IsModel i a → ⊥)) }
{}
