//! The tests of par_transform, which see what is public alone. They stand apart, so that par_transform is proved once.
#![tactic(auto)]

#[cfg(test)]
mod pooled;
#[cfg(test)]
mod tests;
