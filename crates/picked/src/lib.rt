//! A value that only proofs read, chosen by whoever makes it.
#![tactic(auto)]

ghost use Rattle.std.specs.Prelude.{◌≡◌};
ghost use Rattle.std.specs.Borrow.{ftrue};

use std::marker::{Model, PhantomData};

/// A name for a value. The proof of a call that passes `Brand` chooses which value it is.
pub trait Picks<T> {
    /// The value that was chosen.
    ghost value: { T };
}

/// A value of a type of which no value is ever made: it takes no bytes, and only contracts and proofs read it.
#[derive(Drop)]
pub struct Picked<T> {
    of: PhantomData<T>,
    pub ghost value: { T },
}

impl<T> Model for Picked<T> {
    ghost also_owns = { λ _. ftrue };
}

impl<T> Picked<T> {
    /// The value that the name has.
    pub fn new<J: Picks<T>>() -> Picked<T>
        ensures { result.value ≡ J.value }
    {
        Picked { of: PhantomData }
    }
}

// It owns nothing, so it may go to another thread.
unsafe impl<T: Send> Send for Picked<T> {}
