//! The law of what the program takes of a script.
ghost use Rattle.std.specs.Prelude.{◌≡◌, ℕ, List, All};
ghost use Rattle.grid_types.specs.declared.request.Line.{Line};
ghost use Rattle.grid_script.specs.Taken.{IsScript, IsFault};

/// The law of scripts: a script has no fault, a text has one fault at most, and each line of a script is client 1's.
pub fn taken_law<const K: usize>()
    ensures sound { (bytes : List ℕ) (asked : List (Line K)) (n : ℕ) → IsScript bytes asked
        → IsFault K bytes n → ⊥ }
    ensures one { (bytes : List ℕ) (n m : ℕ) → IsFault K bytes n → IsFault K bytes m → n ≡ m }
    ensures clients { (bytes : List ℕ) (asked : List (Line K)) → IsScript bytes asked
        → All (λ l. l.client ≡ 1) asked }
{}
