//! The tests of pipe_run, which see what is public alone. They stand apart, so that pipe_run is proved once.
#![tactic(auto)]

#[cfg(test)]
mod gated;
#[cfg(test)]
mod tests;
