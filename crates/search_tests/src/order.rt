//! The terms of Luby, Sinclair and Zuckerman by hand.

use sat_order::Luby;
use std::process::Abort;

#[test]
fn first_fifteen_terms(rt: HostRuntime) {
    let mut terms = Luby::new();
    for want in [1, 1, 2, 1, 1, 2, 4, 1, 1, 2, 1, 1, 2, 4, 8] {
        assert!(rt; terms.next() == want);
    }
}
