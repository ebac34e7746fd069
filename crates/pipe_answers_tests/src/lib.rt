//! The tests of pipe_answers, which see what is public alone. They stand apart, so that pipe_answers is proved once.
#![tactic(auto)]

#[cfg(test)]
mod tests;
