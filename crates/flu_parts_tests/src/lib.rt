//! Tests of nodes apart: what they send as text, read and joined to the fold of all other events, gives the report of the fold. It has no
//! code of its own.
#![tactic(auto)]

#[cfg(test)]
mod cases;
#[cfg(test)]
mod changed;
#[cfg(test)]
mod files;
#[cfg(test)]
mod joined;
#[cfg(test)]
mod parts;
