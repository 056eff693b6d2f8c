//! Routes and counts over the state that entries leave.

ghost use Rattle.std.specs.Prelude.{◌≡◌, ◌++◌, List};
ghost use Rattle.nr_spec_log.specs.Chain.{LogEntry};
ghost use Rattle.nr_spec_routes.specs.Keys.{Key, Row};
ghost use Rattle.nr_spec_routes.specs.Routes.{route_after};
ghost use Rattle.nr_spec_routes.specs.Rows.{rows_after};
ghost use Rattle.nr_spec_counts.specs.Tallies.{Tally, tally_after};

/// Over the rows that entries leave, the routes and the rows after further ones are those after all.
#[tactic(auto, using(crate::proofs::Standing::route_goes_on, crate::proofs::Standing::rows_go_on))]
pub fn routes_go_on()
    ensures routes { (rows : List Row) (past later : List LogEntry) (key : Key)
        → route_after (rows_after rows past) later key ≡ route_after rows (past ++ later) key }
    ensures rows { (rows : List Row) (past later : List LogEntry)
        → rows_after (rows_after rows past) later ≡ rows_after rows (past ++ later) }
{}

/// Over the counts that entries leave, the counts after further ones are those after all.
#[tactic(auto, using(crate::proofs::Standing::counts_go_on))]
pub fn counts_go_on()
    ensures { (tally : Tally) (past later : List LogEntry)
        → tally_after (tally_after tally past) later ≡ tally_after tally (past ++ later) }
{}
