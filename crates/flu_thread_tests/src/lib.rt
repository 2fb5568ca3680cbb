//! Tests of lots, of mailboxes, of the links between workers and of the arrival words, in one thread and in several. It has no code of its own.
#![tactic(auto)]

#[cfg(test)]
mod arrivals;
#[cfg(test)]
mod counted;
#[cfg(test)]
mod jobs;
#[cfg(test)]
mod links;
#[cfg(test)]
mod lots;
#[cfg(test)]
mod mailboxes;
#[cfg(test)]
mod passing;
