//! The tests of par_access, which see what is public alone. They stand apart, so that par_access is proved once.
#![tactic(auto)]

#[cfg(test)]
mod pooled;
#[cfg(test)]
mod tests;
