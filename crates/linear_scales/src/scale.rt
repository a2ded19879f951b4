//! The scale of an attribute.
ghost use Rattle.std.specs.Prelude.{◌≡◌, ◌<◌, ◌≤◌, ◌+◌, ◌↔◌, ℕ, [], length, IsTrue, OnOk, OnErr, IfOk, IfErr};
ghost use Rattle.grid_types.specs.Queries.{is_straight, begin_of, end_of};
ghost use Rattle.grid_types.specs.Keys.{top};
ghost use Rattle.grid_model.specs.Scales.{interval, intervals, low, high, refined};
ghost use Rattle.linear_scales.specs.Limited.{IsLimited};
ghost use Rattle.linear_scales.specs.Refusals.{TakesBoundary, IsCause};
ghost use Rattle.linear_scales.specs.Sides.{Meets};

use crate::{ScaleRefused, boundaries};
use grid_types::Side;
use std::alloc::{AllocError, Global};
use std::marker::Model;

/// The boundaries of an attribute, and the most that it may have. All memory for them is taken when it is made.
#[derive(Drop)]
pub struct Scale {
    boundaries: Vec<u64>,
    limit: u16,
}

impl Model for Scale {
    ghost use Rattle.std.specs.Prelude.{◌≤◌, vec_capacity};
    ghost use Rattle.linear_scales.specs.Limited.{LimitedScale, IsLimited};

    ghost Value = { LimitedScale };

    ghost view = { λ s. record { boundaries = s.boundaries.items; limit = s.limit } };

    ghost invariant = { λ s. record {
      lawful : IsLimited (record { boundaries = s.boundaries.items; limit = s.limit });
      room : s.limit ≤ vec_capacity s.boundaries;
    } };
}

impl Scale {
    /// A scale without boundaries. All memory for boundaries up to the limit is taken here.
    pub fn new(alloc: Global, limit: u16) -> Result<Scale, AllocError>
        ensures { IfOk result (λ s. s ≡ record { boundaries = []; limit = limit }) }
    {
        let boundaries = Vec::with_capacity(alloc, limit.into())?;
        Ok(Scale { boundaries, limit })
    }

    /// The boundaries, ascending.
    pub fn boundaries(&self) -> &[u64]
        ensures value { result.now ≡ self.now.boundaries }
        ensures lawful { IsLimited self.now }
    {
        &self.boundaries
    }

    pub fn limit(&self) -> u16
        ensures value { result ≡ self.now.limit }
        ensures lawful { IsLimited self.now }
    {
        self.limit
    }

    /// How many intervals there are, one more than boundaries.
    pub fn intervals(&self) -> u32
        ensures { result ≡ intervals self.now.boundaries }
    {
        self.boundaries.len() as u32 + 1
    }

    /// The interval of a number.
    pub fn interval(&self, v: u64) -> u32
        ensures value { result ≡ interval self.now.boundaries v }
        ensures within { result ≤ length self.now.boundaries }
        ensures lawful { IsLimited self.now }
    {
        boundaries::interval(&self.boundaries, v) as u32
    }

    /// The lowest and the highest number of an interval.
    pub fn bounds(&self, i: u32) -> (u64, u64)
        requires { i ≤ length self.now.boundaries }
        ensures low { result.0 ≡ low self.now.boundaries i }
        ensures high { result.1 ≡ high self.now.boundaries i }
        ensures contain { (v : ℕ)
            → v ≤ top
            → ((result.0 ≤ v) × (v ≤ result.1)) ↔ (interval self.now.boundaries v ≡ i) }
    {
        let i = i as usize;
        (
            boundaries::low(&self.boundaries, i),
            boundaries::high(&self.boundaries, i),
        )
    }

    /// Adds a boundary. It takes no memory.
    pub fn refine(&mut self, v: u64) -> Result<(), ScaleRefused>
        requires { 1 ≤ v }
        ensures taken { OnOk result (TakesBoundary self.old v) }
        ensures refused { IfErr result (IsCause self.old v) }
        ensures boundaries { OnOk result (self.new.boundaries ≡ refined self.old.boundaries v) }
        ensures limit { self.new.limit ≡ self.old.limit }
        ensures unchanged { OnErr result (self.new ≡ self.old) }
    {
        match boundaries::search(&self.boundaries, v) {
            Ok(_) => Err(ScaleRefused::Present),
            Err(_) if self.boundaries.len() >= self.limit as usize => Err(ScaleRefused::Limit),
            Err(at) => {
                boundaries::put(&mut self.boundaries, at, v);
                Ok(())
            }
        }
    }

    /// The lowest and the highest interval that meet a side.
    pub fn interval_range(&self, side: &Side) -> (u32, u32)
        requires { IsTrue (is_straight side.now) }
        ensures lowest { result.0 ≡ interval self.now.boundaries (begin_of side.now) }
        ensures highest { result.1 ≡ interval self.now.boundaries (end_of side.now) }
        ensures meets { (i : ℕ)
            → i ≤ length self.now.boundaries
            → Meets self.now.boundaries side.now i ↔ ((result.0 ≤ i) × (i ≤ result.1)) }
        ensures lawful { IsLimited self.now }
    {
        (self.interval(side.begin()), self.interval(side.end()))
    }

    /// Makes this scale the other one. It takes no memory.
    pub fn copy_from(&mut self, other: &Scale)
        requires { other.now.limit ≡ self.old.limit }
        ensures { self.new ≡ other.now }
    {
        boundaries::replace(&mut self.boundaries, &other.boundaries);
    }
}
