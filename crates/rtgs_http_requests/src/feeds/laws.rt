//! Laws of the definitions: an input has one outcome, however it was cut. Each function does nothing: its contract is
//! the law.
ghost use Rattle.std.specs.Prelude.{◌≡◌, ◌⊎◌, ◌++◌, ℕ, List, length};
ghost use Rattle.rtgs_http_requests.specs.feeds.Body.{Body, TakesBody};
ghost use Rattle.rtgs_http_requests.specs.feeds.Region.{StartsWith, IsTooLong, IsOpen, IsRegion, TakesHead};
ghost use Rattle.rtgs_http_requests.specs.feeds.Pieces.{body_step_behind, head_step_behind};
ghost use Rattle.rtgs_http_requests.specs.declared.feeds.body_step.BodyStep.{BodyStep};
ghost use Rattle.rtgs_http_requests.specs.declared.feeds.head_step.HeadStep.{HeadStep};

/// An input has one region at its start at most.
pub fn regions_are_determined()
    ensures { (input one other rest more : List ℕ)
        → StartsWith input one rest → StartsWith input other more → one ≡ other }
{}

/// An input starts with a region, or is too long for one, or is unfinished.
pub fn every_input_has_an_outcome()
    ensures { (input : List ℕ) → ((region : List ℕ) × (rest : List ℕ) × StartsWith input region rest)
        ⊎ (IsTooLong input ⊎ IsOpen input) }
{}

/// An input that starts with a region is neither too long nor unfinished, and one that is too long is not unfinished.
pub fn outcomes_are_apart()
    ensures long { (input region rest : List ℕ) → StartsWith input region rest → ¬ IsTooLong input }
    ensures unfinished { (input region rest : List ℕ) → StartsWith input region rest → ¬ IsOpen input }
    ensures length { (input : List ℕ) → IsTooLong input → ¬ IsOpen input }
{}

/// Two pieces do what they do as one: so the pieces do not matter, except for what they are together.
pub fn pieces_may_be_joined()
    ensures head { (old first second mid new : List ℕ) (step : HeadStep)
        → TakesHead old first HeadStep.More mid → TakesHead mid second step new
        → TakesHead old (first ++ second) (head_step_behind (length first) step) new }
    ensures body { (old mid new : Body) (first second : List ℕ) (step : BodyStep)
        → TakesBody old first BodyStep.More mid → TakesBody mid second step new
        → TakesBody old (first ++ second) (body_step_behind (length first) step) new }
{}
