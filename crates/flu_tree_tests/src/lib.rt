//! Tests of the tree: which jobs are accepted, which nodes may be apart, lots that are parted and joined, and when the tree pays.
#![tactic(auto)]

#[cfg(test)]
mod apart;
#[cfg(test)]
mod checks;
#[cfg(test)]
mod estimates;
#[cfg(test)]
mod jobs;
#[cfg(test)]
mod lots;
#[cfg(test)]
mod streams;
