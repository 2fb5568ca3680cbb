//! The name of the last row.

ghost use Rattle.std.specs.Prelude.{◌≡◌, IfSome, option_map};
ghost use Rattle.flu_rows.specs.LoopNames.{name_at_front, StartsWithName};

use crate::names::name_len;
use crate::short_name::ShortName;
use flu_names::{are_name, is_name_byte};
use std::marker::Model;

/// The last name that a row had. A row that repeats it need not have it tested again: the rows of a source have few names.
#[derive(Drop)]
pub(crate) struct LastName {
    name: Option<ShortName>,
}

impl Model for LastName {
    ghost use Rattle.std.specs.Prelude.{List, ℕ, Option, IsTrue};
    ghost use Rattle.std.specs.Option.{ForSome};
    ghost use Rattle.flu_names.specs.Names.{is_name};

    ghost Value = { Option (List ℕ) };

    ghost view = { λ l. l.name };

    ghost invariant = { λ l. ForSome l.name (λ n. IsTrue (is_name n)) };
}

impl LastName {
    /// No name.
    pub(crate) fn none() -> LastName {
        LastName { name: None }
    }

    /// The name at the front of a tag, if there is one, and what comes after it.
    #[inline(always)]
    #[tactic(auto, using(crate::proofs::NameBytes::at_front_name))]
    pub(crate) fn name_at_front<'a>(&mut self, tag: &'a [u8]) -> Option<(ShortName, &'a [u8])>
        ensures { option_map (λ n. (n.0, n.1.now)) result ≡ name_at_front tag.now }
    {
        if let Some(name) = &self.name {
            if let Some(rest) = rest_of(tag, name.as_bytes()) {
                return Some((name.copy(), rest));
            }
        }
        self.other_name(tag)
    }

    // The same where it may be any name, which is tested.
    #[inline(never)]
    #[tactic(auto, using(crate::proofs::NameBytes::name_bytes, crate::proofs::NameBytes::ascii_name))]
    fn other_name<'a>(&mut self, tag: &'a [u8]) -> Option<(ShortName, &'a [u8])>
        ensures { option_map (λ n. (n.0, n.1.now)) result ≡ name_at_front tag.now }
    {
        let (name, rest) = tag.split_at(name_len(tag));
        if !are_name(name) {
            return None;
        }
        let name = ShortName::of(name);
        self.name = Some(name.copy());
        Some((name, rest))
    }
}

// What comes after a name at the front of a tag, if the name ends there.
#[inline(always)]
fn rest_of<'a>(tag: &'a [u8], name: &[u8]) -> Option<&'a [u8]>
    ensures { IfSome result (λ rest. StartsWithName tag.now name.now rest.now) }
{
    let rest = tag.strip_prefix(name)?;
    match rest {
        [first, ..] if is_name_byte(*first) => None,
        _ => Some(rest),
    }
}
