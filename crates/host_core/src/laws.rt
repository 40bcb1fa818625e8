//! Consequences for any runs and works.

ghost use Rattle.host_core.specs.Headline.{IsolatesSessions};
ghost use Rattle.host_core.specs.Shared.{SharesSearches};

/// Sessions do not affect one another. Two runs under one setup each open a session, and end with
/// it open and nothing pending. If the same bytes were stored for both sessions, both runs made the
/// same bytes for them.
///
/// All else may differ: the ids, the other sessions and their events, the tables, the budgets. One
/// of the two may be a host with that session alone.
pub fn isolation()
    ensures { IsolatesSessions }
{}

/// What one session searched, all others find. When a search that a `Work` ended came to its end,
/// the host's table answered its root with exactly the value and the best move, unless memory was
/// refused.
///
/// It still does after further calls for fewer other keys than the capacity, until another entry is
/// noted under its key. A search of that root then takes no step.
pub fn sharing()
    ensures { SharesSearches }
{}
