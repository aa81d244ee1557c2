//! Laws of the greatest choice, each the contract of a function that does nothing.
ghost use Rattle.std.specs.Prelude.{◌≡◌, ℕ, ◌<◌, ◌≤◌, List, length};
ghost use Rattle.rtgs_gridlock.specs.declared.queues.Payment.{Payment};
ghost use Rattle.rtgs_gridlock.specs.declared.positions.Position.{Position};
ghost use Rattle.rtgs_gridlock.specs.Choices.{IsFeasible, IsGreatest};
ghost use Rattle.rtgs_gridlock.specs.Laws.{IsSettled, order_count, value_of};

/// There is at most one greatest choice.
pub fn greatest_is_unique()
    ensures { (positions : List Position) → (queues : List (List Payment)) → (one other : ℕ → ℕ) →
        IsGreatest positions queues one → IsGreatest positions queues other →
        (p : ℕ) → p < length queues → one p ≡ other p }
{}

/// No feasible choice takes more payments, or more value.
pub fn greatest_is_most()
    ensures orders { (positions : List Position) → (queues : List (List Payment)) → (choice other : ℕ → ℕ) →
        IsGreatest positions queues choice → IsFeasible positions queues other →
        order_count queues other ≤ order_count queues choice }
    ensures value { (positions : List Position) → (queues : List (List Payment)) → (choice other : ℕ → ℕ) →
        IsGreatest positions queues choice → IsFeasible positions queues other →
        value_of queues other ≤ value_of queues choice }
{}

/// Once the greatest choice is settled, the greatest choice of what is left is empty.
pub fn greatest_leaves_nothing()
    ensures { (positions rest_positions : List Position) → (queues rest_queues : List (List Payment)) → (choice : ℕ → ℕ)
        →
        IsGreatest positions queues choice → IsSettled positions queues choice rest_positions rest_queues →
        IsGreatest rest_positions rest_queues (λ _. 0) }
{}
