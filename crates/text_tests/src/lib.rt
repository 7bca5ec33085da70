//! Tests of what is read and written that are no data of `svsim_examples`: calls of the libraries, readers
//! and writers that fail or are interrupted, the longest files, gates, and lines that differ from run to run.
#![tactic(auto)]

#[cfg(test)]
mod asserting;
#[cfg(test)]
mod broken_pipes;
#[cfg(test)]
mod ends;
#[cfg(test)]
mod gates;
#[cfg(test)]
mod interrupted;
#[cfg(test)]
mod known_lists;
#[cfg(test)]
mod limits;
#[cfg(test)]
mod lines_written;
#[cfg(test)]
mod live_steps;
#[cfg(test)]
mod many_faults;
#[cfg(test)]
mod near_words;
#[cfg(test)]
mod no_steps;
#[cfg(test)]
mod pictures;
#[cfg(test)]
mod places;
#[cfg(test)]
mod printed;
#[cfg(test)]
mod progress;
#[cfg(test)]
mod readers_and_writers;
#[cfg(test)]
mod refusal_numbers;
#[cfg(test)]
mod samples;
#[cfg(test)]
mod stale_runs;
#[cfg(test)]
mod steps_read;
#[cfg(test)]
mod texts;
#[cfg(test)]
mod vain;
#[cfg(test)]
mod words_read;
