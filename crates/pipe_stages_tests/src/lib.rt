//! The tests of pipe_stages, which see what is public alone. They stand apart, so that pipe_stages is proved once.
#![tactic(auto)]

#[cfg(test)]
mod tests;
