//! Names that read as sources without a row.

ghost use Rattle.std.specs.Prelude.{◌≡◌, ◌≢◌, ◌≤◌, List, ℕ, [], length, take, drop, min, Some, None, IfOk, IfSome, is_some, unwrap_or, if◌then◌else◌};
ghost use Rattle.flu_selected.specs.Selecting.{end_line, whole_lines};

use crate::end_line::EndLine;
use flu_model::Text;
use std::alloc::{AllocError, Global};
use std::collections::BTreeMap;

/// Names that read as sources without a row.
///
/// Contracts see what is left of the line `end` under each of them (`lines_in` of `specs/Closed.antt`).
#[derive(Drop)]
pub struct ClosedNames {
    lines: BTreeMap<String, EndLine>,
}

impl ClosedNames {
    ghost use Rattle.flu_selected.specs.Closed.{lines_in};

    /// These names, of which nothing was taken yet.
    pub fn new(alloc: Global, names: &[Text]) -> Result<ClosedNames, AllocError>
        ensures { IfOk result (λ closed. lines_in closed ≡ whole_lines names.now) }
    {
        let mut lines = BTreeMap::new(alloc);
        for name in names {
            let name = String::from_str(alloc, name.as_str())?;
            lines.insert(name, EndLine::whole())?;
        }
        Ok(ClosedNames { lines })
    }

    /// Takes bytes from the front of the line under a closed name, as many as there are and fit, and says how many. None means that
    /// the name is not closed.
    pub(crate) fn take(&mut self, name: &str, buf: &mut [u8]) -> Option<usize>
        ensures closed { is_some result ≡ is_some (lines_in self.old name.now) }
        ensures amount { IfSome result (λ n. n ≡ min (length buf.old) (length (unwrap_or (lines_in self.old name.now) []))) }
        ensures given { IfSome result (λ n. take n buf.new ≡ take n (unwrap_or (lines_in self.old name.now) [])) }
        ensures left { IfSome result (λ n. lines_in self.new name.now ≡ Some (drop n (unwrap_or (lines_in self.old name.now) []))) }
        ensures same_names { (n : List ℕ) → is_some (lines_in self.new n) ≡ is_some (lines_in self.old n) }
        ensures others { (n : List ℕ) → n ≢ name.now → lines_in self.new n ≡ lines_in self.old n }
        ensures kept { result ≡ None → (n : List ℕ) → lines_in self.new n ≡ lines_in self.old n }
    {
        let line = self.lines.get_mut(name)?;
        Some(line.take_into(buf))
    }

    /// Whether a name is one of these.
    pub(crate) fn has(&self, name: &str) -> bool
        ensures { result ≡ is_some (lines_in self.now name.now) }
    {
        self.lines.contains_key(name)
    }
}
