//! The clauses that give slots their tracks.
ghost use Rattle.std.specs.Prelude.{◌≤◌, ◌<◌, All, length};
ghost use Rattle.route_encode.specs.Adding.{Adds, HasRoom, HasVariables};
ghost use Rattle.route_pinned.specs.Pinned.{row_clauses};

use route_encode::{Variables, add_clause};
use sat_clause::Formula;

/// Adds for each slot of a row that it has the track that is its place there.
pub(crate) fn add_row(formula: &mut Formula, variables: Variables, row: &[u32])
    requires tracks { length row.now ≤ variables.width }
    requires slots { All (λ s. s < variables.slots) row.now }
    requires vars { HasVariables variables formula.old }
    requires room { HasRoom formula.old (row_clauses variables.width row.now) }
    ensures { Adds formula.old (row_clauses variables.width row.now) formula.new }
{
    for (track, slot) in row.iter().enumerate() {
        add_clause(formula, &[variables.has(*slot, track as u32)]);
    }
}
