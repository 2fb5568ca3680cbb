//! The lists that name the items of kinds.

ghost use Rattle.std.specs.Prelude.{◌≡◌, map, option_map, IfOk};
ghost use Rattle.flu_model.specs.Erasure.{plain_kind};
ghost use Rattle.flu_model.specs.Numberings.{list_at};
ghost use Rattle.flu_rows.specs.ItemNames.{item_lists, items_named, named_item};

use crate::fields::item_in;
use flu_model::{Kind, Name, NameList};
use std::alloc::{AllocError, Global};
use std::marker::Model;
use std::sync::Arc;

/// For each kind whose items a list names, the kind's name and the list, in the order of the kinds. Contracts see these pairs.
///
/// They are shared by all that `share` them. Where there are none, no memory is taken, and a look-up is one test.
#[derive(Drop)]
pub struct ItemLists {
    kinds: Option<Arc<Vec<(Name, NameList)>>>,
}

impl Model for ItemLists {
    ghost use Rattle.std.specs.Prelude.{List, [], ℕ, option_map, unwrap_or};
    ghost use Rattle.std.specs.Arc.{arc_value};
    ghost use Rattle.std.specs.Global.{Vec as Items};
    ghost use Rattle.flu_model.specs.Numberings.{Numbering};

    ghost Value = { List (List ℕ × Numbering) };

    ghost view = { λ l. unwrap_or (option_map (λ kinds. (arc_value {X = Items (List ℕ × Numbering)} kinds).items) l.kinds) [] };
}

impl ItemLists {
    /// The lists that name the items of these kinds.
    ///
    /// # Errors
    ///
    /// Only if memory runs out.
    pub fn of(alloc: Global, lists: &[NameList], kinds: &[Kind]) -> Result<ItemLists, AllocError>
        ensures { IfOk result (λ l. l ≡ item_lists lists.now (map plain_kind kinds.now)) }
    {
        let named = named_kinds(alloc, lists, kinds)?;
        if named.is_empty() {
            return Ok(ItemLists { kinds: None });
        }
        Ok(ItemLists {
            kinds: Some(Arc::new(alloc, named)?),
        })
    }

    /// The same lists, which are shared. It takes no memory.
    ///
    /// # Errors
    ///
    /// Only if they are shared by more than can be counted.
    pub fn share(&self) -> Result<ItemLists, AllocError>
        ensures { IfOk result (λ l. l ≡ self.now) }
    {
        match &self.kinds {
            None => Ok(ItemLists { kinds: None }),
            Some(kinds) => Ok(ItemLists {
                kinds: Some(kinds.clone()?),
            }),
        }
    }

    /// The list of the first kind of this name, if there is one.
    #[inline(always)]
    pub fn of_kind(&self, name: &[u8]) -> Option<&NameList>
        ensures { option_map (λ l. l.now) result ≡ items_named self.now name.now }
    {
        match &self.kinds {
            None => None,
            Some(kinds) => list_of(&**kinds, name),
        }
    }
}

// For each kind whose items a list names, the kind's name and the list.
fn named_kinds(
    alloc: Global,
    lists: &[NameList],
    kinds: &[Kind],
) -> Result<Vec<(Name, NameList)>, AllocError>
    ensures { IfOk result (λ named. named.items ≡ item_lists lists.now (map plain_kind kinds.now)) }
{
    let mut named = Vec::new(alloc);
    for kind in kinds {
        if let Some(list) = list_at(lists, kind.list) {
            let name = Name::of(String::from_str(alloc, kind.name.as_str())?);
            named.push((name, list.share()?))?;
        }
    }
    Ok(named)
}

// The list of this number, if one is meant.
fn list_at(lists: &[NameList], number: Option<u32>) -> Option<&NameList>
    ensures { option_map (λ l. l.now) result ≡ list_at lists.now number }
{
    lists.get(number? as usize)
}

// The list of the first kind of this name, if there is one.
fn list_of<'a>(kinds: &'a [(Name, NameList)], name: &[u8]) -> Option<&'a NameList>
    ensures { option_map (λ l. l.now) result ≡ items_named kinds.now name.now }
{
    for (kind, list) in kinds {
        if kind.as_str().as_bytes() == name {
            return Some(list);
        }
    }
    None
}

/// The item that a text names, if the list has it.
pub(crate) fn named_item(list: &NameList, text: &[u8]) -> Option<u16>
    ensures { result ≡ named_item list.now text.now }
{
    item_in(list.number(text)? as u64)
}
