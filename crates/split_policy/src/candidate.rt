//! Candidates for a cut.
ghost use Rattle.std.specs.Prelude.{◌≡◌, ◌++◌, ◌∷◌, ◌&&◌, [], ℕ, List, length, nat_lt, IsTrue, MatchOption};
ghost use Rattle.grid_model.specs.Lists.{ranks_below};
ghost use Rattle.grid_model.specs.Cuts.{left_part, right_part, apart_by};
ghost use Rattle.split_policy.specs.Candidates.{rank_of, dividing, best_of};

/// A boundary at which a bucket may be cut.
#[derive(Clone, Copy, Debug, PartialEq, Eq)]
pub struct Candidate {
    /// By how many records one part would be longer.
    pub difference: usize,
    pub attribute: u8,
    pub value: u64,
}

impl Candidate {
    /// Whether this candidate is better than the other one.
    fn ranks_below(&self, other: &Candidate) -> bool
        ensures { result ≡ ranks_below (rank_of self.now) (rank_of other.now) }
    {
        if self.difference != other.difference {
            return self.difference < other.difference;
        }
        if self.attribute != other.attribute {
            return self.attribute < other.attribute;
        }
        self.value < other.value
    }
}

/// Whether a candidate is the first one, or better than the best so far.
fn is_better(candidate: &Candidate, best: &Option<Candidate>) -> bool
    ensures { MatchOption best.now
        (IsTrue result)
        (λ old. result ≡ ranks_below (rank_of candidate.now) (rank_of old)) }
{
    match best {
        None => true,
        Some(old) => candidate.ranks_below(old),
    }
}

/// By how much one number is above the other.
fn apart_by(left: usize, right: usize) -> usize
    ensures { result ≡ apart_by left right }
{
    if left < right {
        right - left
    } else {
        left - right
    }
}

/// Whether neither part is empty.
fn divides(left: usize, right: usize) -> bool
    ensures { result ≡ (nat_lt 0 left && nat_lt 0 right) }
{
    0 < left && 0 < right
}

/// Makes the best of the candidates so far the best of these and of a boundary that makes parts of these sizes, where it
/// divides the records.
pub fn consider(best: &mut Option<Candidate>, attribute: u8, value: u64, left: usize, right: usize)
    ensures { (keys : List (List ℕ)) (candidates : List (ℕ × ℕ))
        → length (left_part keys attribute value) ≡ left
        → length (right_part keys attribute value) ≡ right
        → best.old ≡ best_of keys candidates
        → best.new ≡ best_of keys (candidates ++ dividing keys attribute (value ∷ [])) }
{
    if !divides(left, right) {
        return;
    }
    let candidate = Candidate {
        difference: apart_by(left, right),
        attribute,
        value,
    };
    if is_better(&candidate, best) {
        *best = Some(candidate);
    }
}
