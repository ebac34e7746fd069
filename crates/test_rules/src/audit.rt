//! What an audit says in all.

use par_task::Audit;

/// How many tests the leaves made.
pub fn tested(audit: &Audit) -> u64 {
    let mut tests = 0u64;
    for leaf in audit.leaves() {
        tests = tests.saturating_add(leaf.tested);
    }
    tests
}
