//! Laws of the lines of a partial, each the contract of a function that does nothing.

ghost use Rattle.flu_partial.specs.Laws.{LawOfContributions, LawOfHeads, LawOfPrintedContributions, LawOfPrintedHeads};

/// A text is that of one head at most.
pub fn heads_have_one_text()
    ensures { LawOfHeads }
{}

/// A text is that of one contribution at most.
pub fn contributions_have_one_text()
    ensures { LawOfContributions }
{}

/// The text of a head is its line, so `read_head` of it gives this head, unless memory runs out. For this the job and the plan have to
/// be UTF-8, and the text at most 536,870,912 bytes.
pub fn printed_heads_are_lines()
    ensures { LawOfPrintedHeads }
{}

/// The text of a contribution is its line, so `read_contribution` of it gives this contribution, unless memory runs out. For this its
/// outputs have to be UTF-8, and the text at most 536,870,912 bytes.
pub fn printed_contributions_are_lines()
    ensures { LawOfPrintedContributions }
{}
