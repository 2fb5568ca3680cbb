//! Tests of the top call: commands over the objects in memory, with what they leave in out and err; and of the places that hints name.
#![tactic(auto)]

#[cfg(test)]
mod calls;
#[cfg(test)]
mod limits;
