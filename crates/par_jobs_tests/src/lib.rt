//! The tests of par_jobs, which see what is public alone. They stand apart, so that par_jobs is proved once.
#![tactic(auto)]

#[cfg(test)]
mod pooled;
#[cfg(test)]
mod tests;
