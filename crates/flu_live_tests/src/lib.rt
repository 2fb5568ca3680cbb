//! Tests of runs of the net that seeds draw, of steps by hand, and of traces and their replays. It has no code of its own.
#![tactic(auto)]

#[cfg(test)]
mod drawn;
#[cfg(test)]
mod jobs;
#[cfg(test)]
mod nets;
#[cfg(test)]
mod replays;
#[cfg(test)]
mod runs;
#[cfg(test)]
mod stages;
#[cfg(test)]
mod steps;
#[cfg(test)]
mod texts;
#[cfg(test)]
mod traces;
#[cfg(test)]
mod waits;
