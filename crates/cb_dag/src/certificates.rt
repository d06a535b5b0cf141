// What holds of all closed sets, gains and flows.
ghost use Rattle.std.specs.Prelude.{◌≡◌, ℕ, ℤ, pos, ◌≤ℤ◌, true, false, Bool, List, length, replicate};
ghost use Rattle.std.specs.List.{All};
ghost use Rattle.cb_plain.specs.Amounts.{Amounts};
ghost use Rattle.cb_dag.specs.Closed.{IsBest, IsClosed, NoneGainsMore};
ghost use Rattle.cb_dag.specs.Flows.{IsCertificate, IsCutOff, IsFlow, IsGreatest, IsReachedSet};
ghost use Rattle.cb_dag.specs.Parts.{AreWithin};

/// A certificate shows that no closed set gains more than its set, and that no flow is greater than its own (Picard 1976). It does nothing.
pub fn certificates_show()
    ensures sets { (gains : List ℤ) (edges : List (ℕ × ℕ)) (set : List Bool) (flow : Amounts) → AreWithin (length gains) edges → IsCertificate gains edges set flow
        → NoneGainsMore gains edges set }
    ensures flows { (gains : List ℤ) (edges : List (ℕ × ℕ)) (set : List Bool) (flow : Amounts) → AreWithin (length gains) edges → IsCertificate gains edges set flow
        → IsGreatest gains edges flow }
{}

/// Where no more can flow to the sink, the parts to which more could flow are the best set, and the flow is its certificate. It does nothing.
pub fn reached_parts_are_best()
    ensures certificate { (gains : List ℤ) (edges : List (ℕ × ℕ)) (flow : Amounts) (set : List Bool) → AreWithin (length gains) edges → IsFlow gains edges flow
        → length set ≡ length gains → IsReachedSet gains edges flow set → IsCutOff gains edges flow → IsCertificate gains edges set flow }
    ensures best { (gains : List ℤ) (edges : List (ℕ × ℕ)) (flow : Amounts) (set : List Bool) → AreWithin (length gains) edges → IsFlow gains edges flow
        → length set ≡ length gains → IsReachedSet gains edges flow set → IsCutOff gains edges flow → IsBest gains edges set }
{}

/// All parts are a closed set, and so are none. Where no part gains anything, none are the best set. It does nothing.
pub fn all_and_none_are_closed()
    ensures all { (parts : ℕ) (edges : List (ℕ × ℕ)) → AreWithin parts edges → IsClosed edges (replicate parts true) }
    ensures none { (parts : ℕ) (edges : List (ℕ × ℕ)) → IsClosed edges (replicate parts false) }
    ensures nothing { (gains : List ℤ) (edges : List (ℕ × ℕ)) (set : List Bool) → All (λ gained. gained ≤ℤ pos 0) gains → IsBest gains edges set
        → set ≡ replicate (length gains) false }
{}
