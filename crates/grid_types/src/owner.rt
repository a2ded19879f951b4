//! What a data page is of.
ghost use Rattle.std.specs.Prelude.{◌≡◌};
ghost use Rattle.grid_types.specs.Owners.{same_owner};

/// The owner of a data page: a bucket or a part of the directory, by its number.
#[derive(Clone, Copy, Debug, PartialEq, Eq)]
pub enum Owner {
    Bucket(u32),
    Part(u32),
}

impl Owner {
    /// Whether this owner is the other one.
    pub fn is(self, other: Owner) -> bool
        ensures { result ≡ same_owner self other }
    {
        match (self, other) {
            (Owner::Bucket(left), Owner::Bucket(right)) => left == right,
            (Owner::Part(left), Owner::Part(right)) => left == right,
            _ => false,
        }
    }
}
