//! How many clauses a log adds.
ghost use Rattle.std.specs.Prelude.{◌≡◌};
ghost use Rattle.sat_clause.specs.Learned.{added_count};

use sat_clause::Log;

/// How many clauses the steps of a log add.
pub(crate) fn added(log: &Log) -> u64
    ensures { result ≡ added_count log.now.steps }
{
    let mut added = 0;
    for at in 0..log.len() {
        if !log.step(at).erase {
            added += 1;
        }
    }
    added
}
