//! Laws of what expressions evaluate to.

ghost use Rattle.std.specs.Prelude.{◌≡◌, ◌++◌, ℕ, List};
ghost use Rattle.nesl_eval_meaning.specs.Out.{Out, stuck, beside, all_beside, within};
ghost use Rattle.nesl_eval_meaning.specs.Join.{halves_joined};
ghost use Rattle.nesl_eval_meaning.specs.Names.{Value};
ghost use Rattle.nesl_eval_meaning.specs.Laws.{DepthWithinWork};

/// The depth of an expression is never above its work, and both are at least 1.
pub fn depth_within_work()
    ensures { DepthWithinWork }
{}

/// Two neighbouring intervals, each found under the same budget, and put together, are the whole under it. The second
/// one is not stuck: no expression that has a type is.
pub fn joins_neighbours()
    ensures values { (b : ℕ) (o p : Out (List Value)) → (p ≡ stuck → ⊥)
        → halves_joined (within b o) (within b p) b ≡ within b (beside o p) }
    ensures places { (b : ℕ) (o p : Out (List ℕ)) → (p ≡ stuck → ⊥)
        → halves_joined (within b o) (within b p) b ≡ within b (beside o p) }
{}

/// The outcomes at places, cut in two anywhere, are those at the places before the cut, beside those after it.
pub fn halves_places()
    ensures values { (f : ℕ → Out (List Value)) (is js : List ℕ)
        → all_beside f (is ++ js) ≡ beside (all_beside f is) (all_beside f js) }
    ensures places { (f : ℕ → Out (List ℕ)) (is js : List ℕ)
        → all_beside f (is ++ js) ≡ beside (all_beside f is) (all_beside f js) }
{}
