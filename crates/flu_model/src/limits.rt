//! What has a limit in jobs and plans.

/// How many keys a keyed family or kind has: those from 0 to 65,535.
pub const KEY_COUNT: u32 = 65_536;

/// What a limit of the languages of jobs and plans (`docs/LANGUAGE.md`) is on: the bytes of a text, open parentheses and unary
/// operators, families, kinds, sources, `depends`, keys, rates, itags, the actions of a kind, the height of an expression,
/// the nodes and predicates of a plan, its depth, the slack of a source, and lists of names and the names of a list.
#[derive(Clone, Copy, PartialEq, Eq, Debug)]
pub enum What {
    Bytes,
    Nesting,
    Families,
    Kinds,
    Sources,
    Depends,
    Key,
    Rate,
    Itags,
    Actions,
    Height,
    Nodes,
    Predicates,
    Depth,
    Slack,
    Lists,
    Names,
}
