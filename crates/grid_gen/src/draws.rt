//! Numbers that are drawn one after another: a multiplicative congruential generator.
ghost use Rattle.std.specs.Prelude.{◌≡◌};
ghost use Rattle.grid_gen.specs.Draws.{drawn};

/// What a number is multiplied by to draw the next one.
const MULTIPLIER: u64 = 48_271;

/// What the product is divided by: the prime 2^31 - 1. The remainder is the next number. Seeds are below it and not 0, since
/// 0 draws nothing but zeros.
pub const MODULUS: u32 = 2_147_483_647;

/// Where the drawing has come to.
#[derive(Drop)]
pub struct Draws {
    /// The number that was drawn last; the seed, before any.
    pub last: u32,
}

impl Draws {
    /// Draws the next number. The seed itself is not drawn.
    #[tactic(auto, unfolding(crate::specs::Draws::drawn))]
    pub fn next(&mut self) -> u32
        ensures value { result ≡ drawn self.old.last }
        ensures last { self.new.last ≡ result }
    {
        let number = (u64::from(self.last) * MULTIPLIER % u64::from(MODULUS)) as u32;
        self.last = number;
        number
    }
}
