//! Lemmas for a rule over `atomic_table`: the list of all seats' views, and what a step makes of it.
//!
//! A rule says something of each live view, and a step replaces one. `Views` has what then holds of the list,
//! `Stepping` turns such facts into what a step requires, and `Puts` does the same for a function of numbers
//! that changes at one place and in an area. No code stands here.
#![tactic(auto)]
