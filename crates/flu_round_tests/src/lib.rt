//! Tests of runs in rounds: by the engine that folds, by the net, by a tree of threads, by its backup, and by one that follows or chooses by
//! counts. It has no code of its own.
#![tactic(auto)]

#[cfg(test)]
mod backups;
#[cfg(test)]
mod choices;
#[cfg(test)]
mod drawn;
#[cfg(test)]
mod drawn_jobs;
#[cfg(test)]
mod draws;
#[cfg(test)]
mod inputs;
#[cfg(test)]
mod pieces;
#[cfg(test)]
mod plans;
#[cfg(test)]
mod rows;
#[cfg(test)]
mod runs;
#[cfg(test)]
mod writing;
