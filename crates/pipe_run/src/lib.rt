//! From words and files to the bytes of an answer, and the promise that the program makes.
//!
//! What a run may answer is a *ruling*: a text, or the outcome that refuses it. Rulings are composed in order, so that
//! the first that refuses decides (specs/Rulings.antt). A run is one chain of them (specs/Answers.antt): the pipeline's
//! file, its reading, what is there to run, the rows of the source (specs/Sources.antt), and the steps with the answer
//! and the audits (specs/Runs.antt). `parcoll` promises that its status is that of a ruling of its words and files, and
//! that what it wrote is the ruling's text.
//!
//! A step is a case of `after` in `pipe_stages`, a last step one of `IsAnswerText` in `pipe_answers`: nothing here names
//! one.
#![tactic(auto)]

mod built;
mod files;
mod lines;
mod outcome;
mod program;
mod run;
mod sources;
mod stages;

pub use outcome::{Counted, Outcome, status};
pub use program::parcoll;
pub use run::{check_alone, run_alone_main, run_main};
