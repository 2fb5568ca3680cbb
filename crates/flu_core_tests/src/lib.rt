//! Tests of times as text, of moments and clocks, of the rules of jobs, of states and their tables, and of values. It has no code of its own.
#![tactic(auto)]

#[cfg(test)]
mod calendar;
#[cfg(test)]
mod moments;
#[cfg(test)]
mod rules;
#[cfg(test)]
mod states;
#[cfg(test)]
mod tables;
#[cfg(test)]
mod values;
