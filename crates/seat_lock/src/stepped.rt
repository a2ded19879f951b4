//! What lies in the lock.
ghost use Rattle.std.specs.Prelude.{◌≡◌, ◌≢◌, ℕ, Bool, true, List, Option, Some, Result};
ghost use Rattle.seat_lock.specs.Parts.{how_many, IsOut, IsSafe, MayStep};
ghost use Rattle.seat_lock.specs.Laws.{Laws};

/// A state that seats change by single steps, each seat at a place of its own.
///
/// Its steps make a history, of which only the length need be kept. Each seat has a part: what it knows of the state, and
/// what no step of another seat can take away but to move it onward.
pub trait Stepped {
    /// What a seat asks to be done, as one step.
    type Event;

    /// What it is answered.
    type Reply;

    /// What a seat knows of the state.
    type Part;

    /// What a step adds to the history.
    type Entry;

    /// The number of places, which never changes.
    ghost places: { Self → ℕ };

    /// The part of a place, or none where it is not out.
    ghost part_at: { Self → ℕ → Option Self.Part };

    /// The entries that an event of a seat appends.
    ghost appended: { Self → ℕ → Self.Event → List Self.Entry };

    /// Whether the state is safe for a history behind this front, and for the parts that the seats have.
    ghost safe: { Self → ℕ → List Self.Entry → List (Option Self.Part) → Type 0 };

    /// Whether the second part may follow the first without a step of the seat itself.
    ghost onward: { Self.Part → Self.Part → Type 0 };

    /// What an event asks of the seat's part and of the history that it has seen.
    ghost allowed: { Self.Part → List Self.Entry → Self.Event → Type 0 };

    /// Whether an event of a seat is enabled.
    ghost is_enabled: { Self → ℕ → Self.Event → Bool };

    /// What a step does: the state before, the seat, the event, the state after and the reply.
    ghost does: { Self → ℕ → Self.Event → Self → Self.Reply → Type 0 };

    /// What a fork does: the state before, the seat, the state after and the new place, or the refusal.
    ghost forks: { Self → ℕ → Self → Result ℕ Self.Reply → Type 0 };

    /// What a join does: the state before, the seat, the place that is taken back, and the state after.
    ghost joins: { Self → ℕ → ℕ → Self → Type 0 };

    /// Whether a place with this part may be taken back.
    ghost idle: { Self.Part → Type 0 };

    /// The front of the history.
    ghost front_is: { Self → ℕ };

    /// Whether the event is enabled.
    fn enabled(&self, seat: u32, event: &Self::Event) -> bool
        ensures { result ≡ is_enabled self.now seat event.now };

    /// Makes the event's step.
    fn step(&mut self, seat: u32, event: Self::Event) -> Self::Reply
        requires enabled { is_enabled self.old seat event ≡ true }
        requires allowed { MayStep part_at safe allowed self.old seat event }
        ensures { does self.old seat event self.new result };

    /// The front of the history.
    fn front(&self) -> u64
        ensures { result ≡ front_is self.now };

    /// How many places are out.
    fn out(&self) -> u32
        ensures { result ≡ how_many (part_at self.now) (places self.now) };

    /// Puts a place out and answers it, or is refused.
    fn fork(&mut self, seat: u32) -> Result<u32, Self::Reply>
        requires out { IsOut part_at self.old seat }
        requires safe { IsSafe safe self.old }
        ensures { forks self.old seat self.new result };

    /// Takes the place of another seat back, which is idle.
    fn join(&mut self, seat: u32, other: u32)
        requires apart { seat ≢ other }
        requires out { IsOut part_at self.old seat }
        requires idle { (y : Self.Part) × (part_at self.old other ≡ Some y) × idle y }
        requires safe { IsSafe safe self.old }
        ensures { joins self.old seat other self.new };

    /// Each move keeps the state safe and moves the other seats' parts onward (`specs/Laws.antt`).
    ghost laws: { Laws part_at onward places safe appended allowed is_enabled does forks joins idle
        front_is };
}
