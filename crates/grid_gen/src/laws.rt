//! The law of the generator.
ghost use Rattle.grid_gen.specs.Laws.{IsGenerator, IsWorkedRow};

/// The law of the generator: which lines a script has, and one script as it is written.
pub fn generator_law<const K: usize>()
    ensures lines { IsGenerator K }
    ensures worked { IsWorkedRow }
{}
