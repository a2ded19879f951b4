//! What a seat at the table knows. No value of it is made.
use std::collections::LinkedList;

/// The knowledge of one seat. The views of all seats are where the history lives.
pub struct View<E, P> {
    /// The front at the opening, behind which the history begins.
    pub from: u64,
    /// What the seat has seen of the history.
    pub seen: LinkedList<E>,
    /// What another seat had seen, until the next look at all of the history.
    pub told: LinkedList<E>,
    /// The place of the seat, with its part.
    pub seat: Option<(u32, P)>,
    /// The place of a seat that was joined, with its part, until it is given up.
    pub guest: Option<(u32, P)>,
    /// Where the seat has the turn: the parts that the seats have, by place.
    pub notes: Option<LinkedList<Option<P>>>,
}
