//! Tests of texts: the texts of jobs and plans, their faults and their printed forms, and the words of commands.
#![tactic(auto)]

#[cfg(test)]
mod job_faults;
#[cfg(test)]
mod plans;
#[cfg(test)]
mod printed_jobs;
#[cfg(test)]
mod syntax;
#[cfg(test)]
mod tables;
#[cfg(test)]
mod texts;
#[cfg(test)]
mod whole_jobs;
#[cfg(test)]
mod words;
