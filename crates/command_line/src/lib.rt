//! The words of rrvm's command line: what they ask for, or the first of them that is bad.
//!
//! `rrvm -icount shift=N,rr=record,rrfile=LOG -bios FILE [-m MIB] [-budget T] [-slice S]` records
//! a run, `rrvm -icount rr=replay,rrfile=LOG[,shift=N] -bios FILE [-m MIB]` replays one,
//! `rrvm debug LOG -bios FILE` and `rrvm check LOG -bios FILE` go through a recorded run,
//! `rrvm events LOG` lists a log's events, `rrvm demo N` demonstrates a guest that prints N
//! letters, and `--help` or `--version`, which may be shorter, stands alone. The options of a
//! recording and a replay come in any order, and so do the keys of `-icount`, each of them once.
#![tactic(auto)]

mod commands;
mod icount;
mod laws;
mod line;
mod number;
mod options;
#[cfg(test)]
mod tests;

pub use laws::{first_bad_word_law, icount_law, line_law, missing_words_law, number_law};
pub use line::{Line, RecordWords, ReplayWords, RunWords, read_line, read_quiet};
