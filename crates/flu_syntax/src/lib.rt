//! The grammar of job texts (`docs/LANGUAGE.md`): from tokens to a tree with the places of its words.
//!
//! # How to read the contracts of the readers
//!
//! `specs/Grammar` says by relations what a job is, and `specs/Machine` computes it token by token: `run end before now tokens` is
//! the verdict on tokens, after the declarations `before` were read and the one that is being read is as far as `now` says. Each
//! private reader says which piece of that run it does, by a clause `run` of the form `Reads.. tokens VALUE REST result`, with
//! VALUE and REST for what an Ok gives and for the tokens after it. So the clause of `rate`, `ReadsRate end tokens rate rest`,
//! says: wherever a rate may occur, after the NAME and the TEXT of a source,
//!
//! - Ok: the verdict on the tokens is the verdict on the rest, at the turn after this rate (`SourceSlack`);
//! - Err: the fault is the verdict on the tokens (`Tells`), or memory ran out.
//!
//! Such clauses are chained by equality from `verdict` down to each token, and the laws turn the verdict into the grammar.
#![tactic(auto)]

mod cells;
mod declarations;
mod expressions;
mod fault;
pub mod laws;
mod reading;
mod tokens;
pub mod tree;

pub use fault::SyntaxFault;
pub use flu_text::{WrittenKeys, WrittenNumber, WrittenSpan};
pub use reading::read_syntax;
pub use tree::{
    WrittenAct, WrittenAction, WrittenBy, WrittenCells, WrittenDeclaration, WrittenExpr,
    WrittenHead, WrittenItem, WrittenJob, WrittenKey, WrittenRef, WrittenRelation, WrittenTag,
    WrittenTies, WrittenUnit,
};
