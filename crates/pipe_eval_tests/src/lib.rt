//! The tests of pipe_eval, which see what is public alone. They stand apart, so that pipe_eval is proved once.
#![tactic(auto)]

#[cfg(test)]
mod tests;
