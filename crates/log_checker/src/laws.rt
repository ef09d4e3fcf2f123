// Laws of what is accepted and of what is refused.
ghost use Rattle.std.specs.Prelude.{◌≡◌, ◌<◌, ◌^◌, ℕ, ℤ, List, length, true};
ghost use Rattle.front_set.specs.declared.entry.Entry.{Entry};
ghost use Rattle.front_set.specs.ListText.{list_text};
ghost use Rattle.front_text.specs.Spelling.{Spells};
ghost use Rattle.instance.specs.Shape.{InstanceValue, IsWithinLimits};
ghost use Rattle.instance.specs.ParetoFront.{IsFront};
ghost use Rattle.pb_lin.specs.Problem.{ProblemValue};
ghost use Rattle.proof_laws.specs.declared.why.Why.{Why};
ghost use Rattle.log_checker.specs.Accepted.{IsAccepted, IsEndedProof, IsRightList};
ghost use Rattle.log_checker.specs.ListFaults.{IsListFault};
ghost use Rattle.log_checker.specs.LogFaults.{IsLogFault};
ghost use Rattle.log_checker.specs.NoRefusal.{IsRefusedNowhere};
ghost use Rattle.log_checker.specs.declared.fault.ListWhy.{ListWhy};

/// Law: an accepted list is the front.
pub fn accepted_is_front()
    ensures { (i : InstanceValue) (list log : List ℕ) → IsWithinLimits i → IsAccepted i list log
        → (entries : List Entry) × (list ≡ list_text true entries) × IsFront i entries }
{}

/// Law: a log goes wrong at one line at most, and for one reason.
pub fn one_log_fault()
    ensures { (p : ProblemValue) (vectors : List (List ℤ)) (bytes : List ℕ) (k j : ℕ)
        (why other : Why) → IsLogFault p vectors bytes k why → IsLogFault p vectors bytes j other
        → (k ≡ j) × (why ≡ other) }
{}

/// Law: an ended proof goes wrong nowhere.
pub fn no_log_fault_where_ended()
    ensures { (p : ProblemValue) (vectors : List (List ℤ)) (bytes : List ℕ) (k : ℕ) (why : Why)
        → IsEndedProof p vectors bytes → IsLogFault p vectors bytes k why → ⊥ }
{}

/// Law: a list of fewer than 2^64 bytes goes wrong at one entry at most, and for one reason.
pub fn one_list_fault()
    ensures { (i : InstanceValue) (list : List ℕ) (k j : ℕ) (why other : ListWhy)
        → length list < 2 ^ 64 → IsListFault i list k why → IsListFault i list j other
        → (k ≡ j) × (why ≡ other) }
{}

/// Law: the text, of fewer than 2^64 bytes, of right entries goes wrong nowhere.
pub fn no_list_fault_where_right()
    ensures { (i : InstanceValue) (list : List ℕ) (entries : List Entry) (k : ℕ) (why : ListWhy)
        → length list < 2 ^ 64 → Spells list true entries → IsRightList i entries
        → IsListFault i list k why → ⊥ }
{}

/// Law: what is accepted, with a list of fewer than 2^64 bytes, is refused nowhere.
pub fn no_refusal_where_accepted()
    ensures { (i : InstanceValue) (list log : List ℕ) → length list < 2 ^ 64 → IsAccepted i list log
        → IsRefusedNowhere i list log }
{}
