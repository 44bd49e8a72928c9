//! The command line of the bench: a job, `--workers N` and `--number N`.
//!
//! ```text
//! let words = read_words(alloc, &["run", "--workers", "3"])?;
//! assert_eq!(words.task, Task::Run);
//! assert_eq!(words.workers, 3);
//! ```
#![tactic(auto)]

mod asked;
mod reading;
#[cfg(test)]
mod tests;

pub use asked::{Task, Words, WordsFault};
pub use reading::read_words;
