//! The grammar of plan texts (`docs/LANGUAGE.md`), token by token.

ghost use Rattle.std.specs.Prelude.{◌≡◌, ◌++◌, ◌∷◌, [], OnOk, OnErr};
ghost use Rattle.flu_text.specs.Signs.{span_of, number_of};
ghost use Rattle.flu_plan.specs.Faults.{Gives, each};
ghost use Rattle.flu_plan.specs.Machine.{turn_of, goes, pred, with_pred, with_node, start_step, node_step, name_step, end_step, comma_step, colon_step};
ghost use Rattle.flu_plan.specs.Machine.{kind_step, open_step, low_step, dots_step, high_step, close_step, at_step, arrow_step, left_step, right_step, step};
ghost use Rattle.flu_plan.specs.Machine.{ended, written_in};

use crate::fault::PlanFault;
use crate::terminals::{Terminal, terminal_of};
use crate::written::{WrittenNode, WrittenPred};
use flu_model::List;
use flu_text::{Token, WrittenKeys, WrittenNumber, WrittenSpan};
use std::alloc::Global;
use std::mem;

/// What comes before the next token.
#[derive(Clone, Copy)]
pub enum Stage {
    /// Nothing.
    Start,
    /// `node`.
    Node,
    /// The name of a node.
    Name,
    /// The colon after it.
    Colon,
    /// The comma after a predicate.
    Comma,
    /// The kind of a predicate.
    Kind(WrittenSpan),
    /// The opening bracket after it.
    Open(WrittenSpan),
    /// The first number in brackets.
    Low(WrittenSpan, WrittenNumber),
    /// The two dots after it.
    Dots(WrittenSpan, WrittenNumber),
    /// The second number.
    High(WrittenSpan, WrittenKeys),
    /// The closing bracket.
    Close(WrittenSpan, WrittenKeys),
    /// The `@` of a predicate.
    At(Option<WrittenSpan>, WrittenKeys),
    /// The source of a predicate.
    Source,
    /// The arrow.
    Arrow,
    /// The name of the left child.
    Left(WrittenSpan),
    /// The names of both children.
    Right(WrittenSpan, WrittenSpan),
}

/// The nodes so far, and the name and the predicates so far of the node that is open.
#[derive(Drop)]
struct Reader {
    nodes: Vec<WrittenNode>,
    name: WrittenSpan,
    preds: Vec<WrittenPred>,
    stage: Stage,
}

// The fault of a token that cannot follow.
fn refuse(token: Token) -> Result<(), PlanFault>
    ensures { result ≡ Err (PlanFault.Unexpected token.from) }
{
    Err(PlanFault::Unexpected { at: token.from })
}

impl Reader {
    fn go(&mut self, stage: Stage) -> Result<(), PlanFault>
        ensures { Gives (λ done. turn_of self.new) result (goes (turn_of self.old) stage) }
    {
        self.stage = stage;
        Ok(())
    }

    // One predicate more.
    fn add_pred(
        &mut self,
        kind: Option<WrittenSpan>,
        keys: WrittenKeys,
        source: Option<WrittenSpan>,
    ) -> Result<(), PlanFault>
        ensures ok { OnOk result (turn_of self.new ≡ with_pred (turn_of self.old) (pred kind keys source)) }
        ensures err { OnErr result (result ≡ Err PlanFault.NoMemory) }
    {
        match self.preds.push(WrittenPred { kind, keys, source }) {
            Ok(()) => {
                self.stage = Stage::Source;
                Ok(())
            }
            Err(_) => Err(PlanFault::NoMemory),
        }
    }

    // The open node is whole.
    fn add_node(
        &mut self,
        alloc: Global,
        kids: Option<(WrittenSpan, WrittenSpan)>,
    ) -> Result<(), PlanFault>
        ensures ok { OnOk result (turn_of self.new ≡ with_node (turn_of self.old) kids) }
        ensures err { OnErr result (result ≡ Err PlanFault.NoMemory) }
    {
        let preds = mem::replace(&mut self.preds, Vec::new(alloc));
        let node = WrittenNode {
            name: self.name,
            preds: List::of(preds),
            kids,
        };
        match self.nodes.push(node) {
            Ok(()) => {
                self.stage = Stage::Node;
                Ok(())
            }
            Err(_) => Err(PlanFault::NoMemory),
        }
    }

    fn after_start(&mut self, token: Token, terminal: Terminal) -> Result<(), PlanFault>
        ensures { Gives (λ done. turn_of self.new) result (start_step (turn_of self.old) token terminal) }
    {
        match terminal {
            Terminal::Node => self.go(Stage::Node),
            _ => refuse(token),
        }
    }

    fn after_node(&mut self, token: Token, terminal: Terminal) -> Result<(), PlanFault>
        ensures { Gives (λ done. turn_of self.new) result (node_step (turn_of self.old) token terminal) }
    {
        match terminal {
            Terminal::Name => {
                self.name = span_of(token);
                self.go(Stage::Name)
            },
            _ => refuse(token),
        }
    }

    fn after_name(&mut self, token: Token, terminal: Terminal) -> Result<(), PlanFault>
        ensures { Gives (λ done. turn_of self.new) result (name_step (turn_of self.old) token terminal) }
    {
        match terminal {
            Terminal::Colon => self.go(Stage::Colon),
            _ => refuse(token),
        }
    }

    fn after_colon(
        &mut self,
        alloc: Global,
        token: Token,
        terminal: Terminal,
    ) -> Result<(), PlanFault>
        ensures { Gives (λ done. turn_of self.new) result (colon_step (turn_of self.old) token terminal) }
    {
        match terminal {
            Terminal::Arrow => self.go(Stage::Arrow),
            Terminal::Node => self.add_node(alloc, None),
            _ => self.after_comma(token, terminal),
        }
    }

    fn after_comma(&mut self, token: Token, terminal: Terminal) -> Result<(), PlanFault>
        ensures { Gives (λ done. turn_of self.new) result (comma_step (turn_of self.old) token terminal) }
    {
        match terminal {
            Terminal::Name => self.go(Stage::Kind(span_of(token))),
            Terminal::At => self.go(Stage::At(None, WrittenKeys::Alone)),
            _ => refuse(token),
        }
    }

    fn after_kind(
        &mut self,
        alloc: Global,
        kind: WrittenSpan,
        token: Token,
        terminal: Terminal,
    ) -> Result<(), PlanFault>
        ensures { Gives (λ done. turn_of self.new) result (kind_step (turn_of self.old) kind token terminal) }
    {
        match terminal {
            Terminal::OpenBracket => self.go(Stage::Open(kind)),
            Terminal::At => self.go(Stage::At(Some(kind), WrittenKeys::Alone)),
            _ => {
                self.add_pred(Some(kind), WrittenKeys::Alone, None)?;
                self.after_pred(alloc, token, terminal)
            },
        }
    }

    fn after_open(
        &mut self,
        kind: WrittenSpan,
        token: Token,
        terminal: Terminal,
    ) -> Result<(), PlanFault>
        ensures { Gives (λ done. turn_of self.new) result (open_step (turn_of self.old) kind token terminal) }
    {
        match terminal {
            Terminal::Number(value) => self.go(Stage::Low(kind, number_at(value, token))),
            _ => refuse(token),
        }
    }

    fn after_low(
        &mut self,
        kind: WrittenSpan,
        low: WrittenNumber,
        token: Token,
        terminal: Terminal,
    ) -> Result<(), PlanFault>
        ensures { Gives (λ done. turn_of self.new) result (low_step (turn_of self.old) kind low token terminal) }
    {
        match terminal {
            Terminal::Dots => self.go(Stage::Dots(kind, low)),
            Terminal::CloseBracket => self.go(Stage::Close(kind, WrittenKeys::One(low))),
            _ => refuse(token),
        }
    }

    fn after_dots(
        &mut self,
        kind: WrittenSpan,
        low: WrittenNumber,
        token: Token,
        terminal: Terminal,
    ) -> Result<(), PlanFault>
        ensures { Gives (λ done. turn_of self.new) result (dots_step (turn_of self.old) kind low token terminal) }
    {
        match terminal {
            Terminal::Number(value) => {
                let keys = WrittenKeys::Range(low, number_at(value, token));
                self.go(Stage::High(kind, keys))
            },
            _ => refuse(token),
        }
    }

    fn after_high(
        &mut self,
        kind: WrittenSpan,
        keys: WrittenKeys,
        token: Token,
        terminal: Terminal,
    ) -> Result<(), PlanFault>
        ensures { Gives (λ done. turn_of self.new) result (high_step (turn_of self.old) kind keys token terminal) }
    {
        match terminal {
            Terminal::CloseBracket => self.go(Stage::Close(kind, keys)),
            _ => refuse(token),
        }
    }

    fn after_close(
        &mut self,
        alloc: Global,
        kind: WrittenSpan,
        keys: WrittenKeys,
        token: Token,
        terminal: Terminal,
    ) -> Result<(), PlanFault>
        ensures { Gives (λ done. turn_of self.new) result (close_step (turn_of self.old) kind keys token terminal) }
    {
        match terminal {
            Terminal::At => self.go(Stage::At(Some(kind), keys)),
            _ => {
                self.add_pred(Some(kind), keys, None)?;
                self.after_pred(alloc, token, terminal)
            },
        }
    }

    fn after_at(
        &mut self,
        kind: Option<WrittenSpan>,
        keys: WrittenKeys,
        token: Token,
        terminal: Terminal,
    ) -> Result<(), PlanFault>
        ensures { Gives (λ done. turn_of self.new) result (at_step (turn_of self.old) kind keys token terminal) }
    {
        match terminal {
            Terminal::Name => self.add_pred(kind, keys, Some(span_of(token))),
            _ => refuse(token),
        }
    }

    // Where a predicate is whole.
    fn after_pred(
        &mut self,
        alloc: Global,
        token: Token,
        terminal: Terminal,
    ) -> Result<(), PlanFault>
        ensures { Gives (λ done. turn_of self.new) result (end_step (turn_of self.old) token terminal) }
    {
        match terminal {
            Terminal::Comma => self.go(Stage::Comma),
            Terminal::Arrow => self.go(Stage::Arrow),
            Terminal::Node => self.add_node(alloc, None),
            _ => refuse(token),
        }
    }

    fn after_arrow(&mut self, token: Token, terminal: Terminal) -> Result<(), PlanFault>
        ensures { Gives (λ done. turn_of self.new) result (arrow_step (turn_of self.old) token terminal) }
    {
        match terminal {
            Terminal::Name => self.go(Stage::Left(span_of(token))),
            _ => refuse(token),
        }
    }

    fn after_left(
        &mut self,
        left: WrittenSpan,
        token: Token,
        terminal: Terminal,
    ) -> Result<(), PlanFault>
        ensures { Gives (λ done. turn_of self.new) result (left_step (turn_of self.old) left token terminal) }
    {
        match terminal {
            Terminal::Name => self.go(Stage::Right(left, span_of(token))),
            _ => refuse(token),
        }
    }

    fn after_right(
        &mut self,
        alloc: Global,
        left: WrittenSpan,
        right: WrittenSpan,
        token: Token,
        terminal: Terminal,
    ) -> Result<(), PlanFault>
        ensures { Gives (λ done. turn_of self.new) result (right_step (turn_of self.old) (left, right) token terminal) }
    {
        match terminal {
            Terminal::Node => self.add_node(alloc, Some((left, right))),
            _ => refuse(token),
        }
    }

    // One token more.
    #[tactic(auto, unfolding(crate::specs::Machine::step))]
    fn take(&mut self, alloc: Global, token: Token) -> Result<(), PlanFault>
        ensures { Gives (λ done. turn_of self.new) result (step (turn_of self.old) token) }
    {
        let terminal = terminal_of(token.word);
        match self.stage {
            Stage::Start => self.after_start(token, terminal),
            Stage::Node => self.after_node(token, terminal),
            Stage::Name => self.after_name(token, terminal),
            Stage::Colon => self.after_colon(alloc, token, terminal),
            Stage::Comma => self.after_comma(token, terminal),
            Stage::Kind(kind) => self.after_kind(alloc, kind, token, terminal),
            Stage::Open(kind) => self.after_open(kind, token, terminal),
            Stage::Low(kind, low) => self.after_low(kind, low, token, terminal),
            Stage::Dots(kind, low) => self.after_dots(kind, low, token, terminal),
            Stage::High(kind, keys) => self.after_high(kind, keys, token, terminal),
            Stage::Close(kind, keys) => self.after_close(alloc, kind, keys, token, terminal),
            Stage::At(kind, keys) => self.after_at(kind, keys, token, terminal),
            Stage::Source => self.after_pred(alloc, token, terminal),
            Stage::Arrow => self.after_arrow(token, terminal),
            Stage::Left(left) => self.after_left(left, token, terminal),
            Stage::Right(left, right) => self.after_right(alloc, left, right, token, terminal),
        }
    }

    // These tokens more.
    fn take_all(&mut self, alloc: Global, tokens: &[Token]) -> Result<(), PlanFault>
        ensures { Gives (λ done. turn_of self.new) result (each step (turn_of self.old) tokens.now) }
    {
        for token in tokens {
            match self.take(alloc, *token) {
                Ok(()) => {}
                Err(fault) => return Err(fault),
            }
        }
        Ok(())
    }

    // The nodes, where the text may end here.
    #[tactic(auto, unfolding(crate::specs::Machine::ended))]
    fn end(mut self, alloc: Global, end: usize) -> Result<Vec<WrittenNode>, PlanFault>
        ensures { Gives (λ nodes. nodes.items) result (ended end (turn_of self)) }
    {
        match self.stage {
            Stage::Colon | Stage::Source => self.add_node(alloc, None)?,
            Stage::Kind(kind) => {
                self.add_pred(Some(kind), WrittenKeys::Alone, None)?;
                self.add_node(alloc, None)?;
            }
            Stage::Close(kind, keys) => {
                self.add_pred(Some(kind), keys, None)?;
                self.add_node(alloc, None)?;
            }
            Stage::Right(left, right) => self.add_node(alloc, Some((left, right)))?,
            _ => return Err(PlanFault::Unexpected { at: end }),
        }
        Ok(self.nodes)
    }
}

fn number_at(value: i64, token: Token) -> WrittenNumber
    ensures { result ≡ number_of value token }
{
    WrittenNumber {
        value,
        at: token.from,
    }
}

fn span_of(token: Token) -> WrittenSpan
    ensures { result ≡ span_of token }
{
    WrittenSpan {
        from: token.from,
        to: token.to,
    }
}

/// The nodes that the tokens of a text are; `end` is the text's length in bytes.
///
/// # Errors
///
/// [`PlanFault::Unexpected`] at the first token with which the tokens before it can no longer be continued to a plan, or at
/// `end` if all of them can and are none yet.
pub fn written_in(
    alloc: Global,
    tokens: &[Token],
    end: usize,
) -> Result<Vec<WrittenNode>, PlanFault>
    ensures { Gives (λ nodes. nodes.items) result (written_in end tokens.now) }
{
    let mut reader = Reader {
        nodes: Vec::new(alloc),
        name: WrittenSpan { from: 0, to: 0 },
        preds: Vec::new(alloc),
        stage: Stage::Start,
    };
    reader.take_all(alloc, tokens)?;
    reader.end(alloc, end)
}
