//! The laws of the definitions, as contracts of functions without code.
ghost use Rattle.grid_cells.specs.Laws.{LieInImages, NamesStay};

/// The law of refinements: each cell of the refined directory lies in its image, and names the same box.
pub fn refinement_law()
    ensures image { LieInImages }
    ensures names { NamesStay }
{}
