//! The rule of a cell, which its caller gives.

/// What holds of the value of a cell and of the views of its passes. A view is what one pass knows. Values and views exist in proofs
/// alone.
pub trait CellRule<V, X> {
    ghost use Rattle.std.specs.Prelude.{◌≡◌, ℕ, List};

    ghost holds: { X → List V → Type 0 };

    // The value of a new cell, and the view of its first pass.
    ghost start: { X };

    ghost first: { V };

    // The code of a value. Each exchange raises it, so that no value comes back.
    ghost code: { X → ℕ };

    // How far a value has come. Each exchange raises it too: values of different codes may have come equally far.
    ghost age: { X → ℕ };

    // The words beside it that a value needs: at a place lies this word.
    ghost needs: { X → ℕ → ℕ → Type 0 };

    // Those of them that a pass can count on: they are needed as long as it knows no more than this view.
    ghost lasts: { V → X → ℕ → ℕ → Type 0 };

    // What a code says at a place.
    ghost head: { ℕ → ℕ → ℕ };

    /// What a code says at a place.
    fn word(told_by: u64, place: usize) -> u64
        ensures { result ≡ head told_by place };
}

/// What a call shows its pass: of its view before, the values before and after, and its view after.
pub trait CellOutcome<V, X> {
    ghost then: { V → X → X → V → Type 0 };
}

/// What an exchange makes of a value, and what it shows its pass.
pub trait CellChange<V, X> {
    ghost next: { X → X };

    ghost then: { V → X → X → V → Type 0 };
}
