//! The laws of sessions of one client, as contracts of functions without code.
ghost use Rattle.client_sessions.specs.Laws.{RunsAreExplained, RunsJoin};

/// The law of sessions that follow one another: they are one session.
pub fn session_law<const K: usize>()
    ensures { RunsJoin K }
{}

/// The law of explanation: one history explains what a client was told, each answer a plain table's at its place.
pub fn explained_law<const K: usize>()
    ensures { RunsAreExplained K }
{}
