//! What the actions of a kind touch, noted by families and keys for a quick test of which kinds may conflict.

ghost use Rattle.std.specs.Prelude.{◌≡◌, ◌==◌, ◌||◌, true, ◌&&◌, ℕ};
ghost use Rattle.std.specs.List.{list_all};
ghost use Rattle.flu_deps.specs.LoopVisits.{has, in_class, place_of, is_marked, is_met, expr_all, guard_all, piece_all, act_all, action_all};
ghost use Rattle.flu_deps.specs.LoopClashes.{marked_test, met_test};
ghost use Rattle.flu_deps.specs.LoopFollows.{KeepsMarks, KeepsMet, Follows, Tells};

use flu_model::{Act, Action, At, CellRef, Expr, KEY_COUNT, Piece};

/// How an action touches a cell.
#[derive(Clone, Copy, PartialEq, Eq)]
pub enum Way {
    Read,
    Add,
    Raise,
    Overwrite,
}

/// Which cells of a family are touched: the one with the key of the tag, the one with a key, or all. The only cell of an unkeyed
/// family has the key 0.
#[derive(Clone, Copy)]
pub enum Place {
    Own,
    Fixed(u32),
    All,
}

/// Which ways are considered: a way that needs what the cell holds conflicts with one that writes it, and adding with raising.
#[derive(Clone, Copy, PartialEq, Eq)]
pub enum Class {
    Needs,
    Writes,
    Adds,
    Raises,
}

// Whether a way is one of a class. In version 1 a cell that is read is owned.
fn in_class(version: u32, class: Class, way: Way) -> bool
    ensures { result ≡ in_class version class way }
{
    match class {
        Class::Needs => matches!(way, Way::Read | Way::Overwrite),
        Class::Writes => version == 1 || !matches!(way, Way::Read),
        Class::Adds => matches!(way, Way::Add),
        Class::Raises => matches!(way, Way::Raise),
    }
}

/// Whether a word has the bit of a number; numbers count from 0 to 63.
pub fn has(word: u64, n: u32) -> bool
    ensures { result ≡ has word n }
{
    (word >> (n % 64)) & 1 == 1
}

/// A word with the bit of a number set.
pub fn with(word: u64, n: u32) -> u64
    ensures there { has result n ≡ true }
    ensures kept { (k : ℕ) → has word k ≡ true → has result k ≡ true }
{
    word | 1 << (n % 64)
}

// Which cell a reference means.
fn place_of(at: At) -> Place
    ensures { result ≡ place_of at }
{
    match at {
        At::Alone => Place::Fixed(0),
        At::OwnKey => Place::Own,
        At::OwnItem => Place::All,
        At::Fixed(key) => Place::Fixed(key),
    }
}

/// The families that a kind touches: at all, at the key of the tag, as a whole, and at each key.
#[derive(Drop)]
pub struct Marks {
    pub any: u64,
    pub own: u64,
    pub whole: u64,
    pub fixed: [u64; 65_536],
}

impl Marks {
    fn mark(&mut self, family: u32, place: Place)
        ensures marked { is_marked self.new family place ≡ true }
        ensures kept { KeepsMarks self.old self.new }
    {
        self.any = with(self.any, family);
        match place {
            Place::Own => self.own = with(self.own, family),
            Place::Fixed(key) => {
                let index = (key % KEY_COUNT) as usize;
                self.fixed[index] = with(self.fixed[index], family);
            }
            Place::All => self.whole = with(self.whole, family),
        }
    }
}

/// How the touches of a kind meet the marks of another: for any keys of the tags, for equal keys, and which families it
/// touches at the key of the tag.
#[derive(Clone, Copy)]
pub struct Meeting {
    pub always: bool,
    pub same_key: bool,
    pub own: u64,
}

impl Meeting {
    fn meet(&mut self, marks: &Marks, family: u32, place: Place)
        ensures met { is_met marks.now self.new family place ≡ true }
        ensures kept { KeepsMet marks.now self.old self.new }
    {
        match place {
            Place::Own => {
                self.same_key = self.same_key || has(marks.own, family);
                self.always = self.always || has(marks.whole, family);
                self.own = with(self.own, family);
            }
            Place::Fixed(key) => {
                let there = marks.fixed[(key % KEY_COUNT) as usize];
                self.always = self.always || has(there, family) || has(marks.whole, family);
            }
            Place::All => self.always = self.always || has(marks.any, family),
        }
    }
}

/// A walk over actions, which marks what they touch or compares it with what is marked.
#[derive(Drop)]
pub struct Visit {
    pub version: u32,
    pub class: Class,
    pub marking: bool,
    pub marks: Marks,
    pub meeting: Meeting,
}

impl Visit {
    /// A walk over a job of this version, with nothing marked.
    pub fn new(version: u32) -> Visit
        ensures { result.version ≡ version }
    {
        Visit {
            version,
            class: Class::Needs,
            marking: true,
            marks: Marks {
                any: 0,
                own: 0,
                whole: 0,
                fixed: [0; 65_536],
            },
            meeting: Meeting {
                always: false,
                same_key: false,
                own: 0,
            },
        }
    }

    /// Marks what the actions touch by a class, and nothing else.
    pub fn mark(&mut self, class: Class, actions: &[Action])
        ensures marked { list_all (action_all (marked_test self.new.version class self.new.marks)) actions.now ≡ true }
        ensures version { self.new.version ≡ self.old.version }
    {
        self.class = class;
        self.marking = true;
        self.marks.any = 0;
        self.marks.own = 0;
        self.marks.whole = 0;
        self.marks.fixed = [0; 65_536];
        self.actions(actions);
    }

    /// Compares what the actions touch by a class with what is marked.
    pub fn meet(&mut self, class: Class, actions: &[Action])
        ensures met { list_all (action_all (met_test self.new.version class self.new.marks self.new.meeting)) actions.now ≡ true }
        ensures version { self.new.version ≡ self.old.version }
        ensures marks { self.new.marks ≡ self.old.marks }
    {
        self.class = class;
        self.marking = false;
        self.meeting = Meeting {
            always: false,
            same_key: false,
            own: 0,
        };
        self.actions(actions);
    }

    fn touch(&mut self, way: Way, family: u32, place: Place)
        ensures told { Tells self.new (λ test. test way family place) }
        ensures follows { Follows self.old self.new }
    {
        if in_class(self.version, self.class, way) {
            if self.marking {
                self.marks.mark(family, place);
            } else {
                self.meeting.meet(&self.marks, family, place);
            }
        }
    }

    fn cell(&mut self, way: Way, r: CellRef)
        ensures told { Tells self.new (λ test. test way r.family (place_of r.at)) }
        ensures follows { Follows self.old self.new }
    {
        self.touch(way, r.family, place_of(r.at));
    }

    fn expr(&mut self, e: &Expr)
        ensures told { Tells self.new (λ test. expr_all test e.now) }
        ensures follows { Follows self.old self.new }
    {
        match e {
            Expr::Lit(_) | Expr::Value | Expr::Key | Expr::Item | Expr::Time => {}
            Expr::Read(r) | Expr::Has(r) => self.cell(Way::Read, *r),
            Expr::Neg(inner) | Expr::Not(inner) => self.expr(inner),
            Expr::Two(_, left, right) => {
                self.expr(left);
                self.expr(right);
            }
        }
    }

    fn guard(&mut self, guard: &Option<Expr>)
        ensures told { Tells self.new (λ test. guard_all test guard.now) }
        ensures follows { Follows self.old self.new }
    {
        match guard {
            Some(e) => self.expr(e),
            None => {}
        }
    }

    fn piece(&mut self, piece: &Piece)
        ensures told { Tells self.new (λ test. piece_all test piece.now) }
        ensures follows { Follows self.old self.new }
    {
        match piece {
            Piece::Read(r) => self.cell(Way::Read, *r),
            Piece::FamilyCell(family) => self.touch(Way::Read, *family, Place::All),
            Piece::Plain(_)
            | Piece::Value
            | Piece::Key
            | Piece::Item
            | Piece::Time
            | Piece::CellValue => {}
        }
    }

    fn pieces(&mut self, pieces: &[Piece])
        ensures told { Tells self.new (λ test. list_all (piece_all test) pieces.now) }
        ensures follows { Follows self.old self.new }
    {
        for piece in pieces {
            self.piece(piece);
        }
    }

    fn change(&mut self, way: Way, r: CellRef, e: &Expr)
        ensures told { Tells self.new (λ test. test way r.family (place_of r.at) && expr_all test e.now) }
        ensures follows { Follows self.old self.new }
    {
        self.cell(way, r);
        self.expr(e);
    }

    fn act(&mut self, act: &Act)
        ensures told { Tells self.new (λ test. act_all test act.now) }
        ensures follows { Follows self.old self.new }
    {
        match act {
            Act::Add(r, e) => self.change(Way::Add, *r, e),
            Act::Raise(r, e) => self.change(Way::Raise, *r, e),
            Act::Set(r, e) => self.change(Way::Overwrite, *r, e),
            Act::Clear(r) => self.cell(Way::Overwrite, *r),
            Act::ClearFamily(family) => self.touch(Way::Overwrite, *family, Place::All),
            Act::Emit(pieces) => self.pieces(pieces.items()),
            Act::Flush(family, pieces) => {
                self.touch(Way::Overwrite, *family, Place::All);
                self.pieces(pieces.items());
            }
        }
    }

    fn action(&mut self, action: &Action)
        ensures told { Tells self.new (λ test. action_all test action.now) }
        ensures follows { Follows self.old self.new }
    {
        self.guard(&action.guard);
        self.act(&action.act);
    }

    fn actions(&mut self, actions: &[Action])
        ensures told { Tells self.new (λ test. list_all (action_all test) actions.now) }
        ensures follows { Follows self.old self.new }
    {
        for action in actions {
            self.action(action);
        }
    }
}
