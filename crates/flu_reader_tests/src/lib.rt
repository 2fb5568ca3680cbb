//! Tests of what is read from outside, and of what is made of it: files and sinks, rows, the gathering of sources, merged lists, updates, folds,
//! reports, checkpoints, partials and demos.
#![tactic(auto)]

#[cfg(test)]
mod checkpoints;
#[cfg(test)]
mod demos;
#[cfg(test)]
mod files;
#[cfg(test)]
mod folds;
#[cfg(test)]
mod gathering;
#[cfg(test)]
mod host;
#[cfg(test)]
mod outcomes;
#[cfg(test)]
mod outside;
#[cfg(test)]
mod partials;
#[cfg(test)]
mod reports;
#[cfg(test)]
mod rows;
#[cfg(test)]
mod slack;
#[cfg(test)]
mod tables;
#[cfg(test)]
mod updates;
