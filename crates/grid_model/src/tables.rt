//! The laws of tables, listings and states.
ghost use Rattle.grid_model.specs.TableLaws.{IsFiniteMap, Lists, MakesStates};

/// The law of tables: a table is a finite map, and an update changes it at its key alone.
pub fn table_law<const K: usize>()
    ensures { IsFiniteMap K }
{}

/// The law of listings: a listing ascends, and has exactly the records that match.
pub fn listing_law<const K: usize>()
    ensures { Lists K }
{}

/// The law of states: each entry of a history changes the table by its update, and what comes later changes no earlier
/// table.
pub fn state_law<const K: usize>()
    ensures { MakesStates K }
{}
