//! The least of some keys, each of which may change.

ghost use Rattle.std.specs.Prelude.{◌≡◌, ◌<◌, ◌≤◌, ◌+◌, ◌*◌, [], drop, length, slice_set, IfOk, IfSome, IfNone};
ghost use Rattle.flu_mail.specs.Keys as keys;
ghost use Rattle.flu_mail.specs.Orders.{node_at, IsTournament, IsLeastOf};

use crate::keys::{Key, lesser};
use std::alloc::{AllocError, Global};
use std::marker::Model;

/// Some keys, by place, with the least of them at hand. To change one costs the logarithm of their number, and takes no memory.
///
/// It is a tournament: a tree in which each node has the lesser of its two children.
#[derive(Drop)]
pub struct Order {
    /// How many keys there are.
    size: usize,
    /// The root is at 1, and the children of the node at v at 2 v and 2 v + 1. The keys are the last `size` nodes; the node at 0
    /// is not used.
    nodes: Vec<Key>,
}

impl Model for Order {
    ghost use Rattle.std.specs.Prelude.{List, drop};
    ghost use Rattle.flu_mail.specs.declared.keys.Key.{Key};
    ghost use Rattle.flu_mail.specs.Orders.{IsTournament};

    ghost Value = { List Key };

    ghost view = { λ o. drop o.size o.nodes.items };

    ghost invariant = { λ o. IsTournament o.size o.nodes.items };
}

impl Order {
    /// These keys.
    ///
    /// # Errors
    ///
    /// Only if memory runs out.
    pub fn new(alloc: Global, keys: &[Key]) -> Result<Order, AllocError>
        ensures { IfOk result (λ order. order ≡ keys.now) }
    {
        let mut nodes = Vec::new(alloc);
        nodes.extend_from_slice(keys)?;
        nodes.extend_from_slice(keys)?;
        let size = keys.len();
        play_all(nodes.as_mut_slice(), size);
        Ok(Order { size, nodes })
    }

    /// The least key; none if there are no keys.
    pub fn least(&self) -> Option<Key>
        ensures some { IfSome result (IsLeastOf self.now) }
        ensures none { IfNone result (self.now ≡ []) }
    {
        match self.nodes.get(1) {
            Some(root) => Some(*root),
            None => None,
        }
    }

    /// The key at a place is this one now; nothing changes where there is no such place.
    pub fn set(&mut self, place: usize, key: Key)
        ensures { self.new ≡ slice_set self.old place key }
    {
        if place >= self.size {
            return;
        }
        play_up(self.nodes.as_mut_slice(), self.size, place, key);
    }
}

// Makes a node the lesser of its children.
fn play(nodes: &mut [Key], v: usize)
    requires { v + v + 1 < length nodes.old }
    ensures { nodes.new ≡ slice_set nodes.old v (keys.lesser (node_at nodes.old (v + v)) (node_at nodes.old (v + v + 1))) }
{
    nodes[v] = lesser(nodes[v + v], nodes[v + v + 1]);
}

// Makes each node the lesser of its children, from the last one up.
fn play_all(nodes: &mut [Key], size: usize)
    requires { length nodes.old ≡ size + size }
    ensures played { IsTournament size nodes.new }
    ensures keys { drop size nodes.new ≡ drop size nodes.old }
{
    let mut v = size;
    while v > 1 {
        v -= 1;
        play(nodes, v);
    }
}

// Sets a key, and makes each node above it the lesser of its children again.
fn play_up(nodes: &mut [Key], size: usize, place: usize, key: Key)
    requires played { IsTournament size nodes.old }
    requires place { place < size }
    ensures played { IsTournament size nodes.new }
    ensures keys { drop size nodes.new ≡ slice_set (drop size nodes.old) place key }
{
    let mut v = size + place;
    nodes[v] = key;
    while v > 1 {
        v /= 2;
        play(nodes, v);
    }
}
