//! A small job that is accepted, and what is refused of it if one thing is changed.

use flu_model::{
    Act, Action, At, CellRef, Depend, Expr, Family, Keys, Kind, List, Name, Piece, Sort, Source,
    TagRef, Text,
};
use flu_rules::program;
use std::alloc::{AllocError, Global};
use std::process::Abort;
use std::test::Fail;

const ADDS: u32 = 0;

const REPORTS: u32 = 1;

/// A job of one family, and how its kinds name their cell and what they do with it.
#[derive(Clone, Copy)]
struct Case {
    version: u32,
    name: &'static str,
    families: u32,
    sort: Sort,
    keyed_family: bool,
    keyed_kinds: bool,
    at: At,
    height: u32,
    literal: Option<i64>,
    texts: &'static [&'static str],
    rate: u64,
    slack: u64,
    tags: [TagRef; 2],
}

/// What is changed of the small job: the version, the family's name, how many families there are, the sort, whether the family and the
/// kinds are keyed and how these name its cell, the height of what is added, a literal in place of the value, the pieces of the
/// template, the rate, the slack, or, if family and kinds are keyed, the tags of the source.
#[derive(Clone, Copy)]
enum Change {
    Nothing,
    Version(u32),
    Name(&'static str),
    Families(u32),
    Sort(Sort),
    Keys(bool, bool, At),
    Height(u32),
    Literal(i64),
    Texts(&'static [&'static str]),
    Rate(u64),
    Slack(u64),
    Tags([TagRef; 2]),
}

/// Together with `{total}` it has 256 bytes, and with one byte more 257.
const LONGEST: &str =
    "aaaaaaaaaaaaaaaaaaaaaaaaaaaaaaaaaaaaaaaaaaaaaaaaaaaaaaaaaaaaaaaaaaaaaaaaaaaaaaaaaaaaaaaaaaaaaaaaaaaaaaaaaaaaaaaaaaaaaaaaaaaaaaaaaaaaaaaaaaaaaaaaaaaaaaaaaaaaaaaaaaaaaaaaaaaaaaaaaaaaaaaaaaaaaaaaaaaaaaaaaaaaaaaaaaaaaaaaaaaaaaaaaaaaaaaaaaaaaaaaaaaaaaaaa";

const TOO_LONG: &str =
    "aaaaaaaaaaaaaaaaaaaaaaaaaaaaaaaaaaaaaaaaaaaaaaaaaaaaaaaaaaaaaaaaaaaaaaaaaaaaaaaaaaaaaaaaaaaaaaaaaaaaaaaaaaaaaaaaaaaaaaaaaaaaaaaaaaaaaaaaaaaaaaaaaaaaaaaaaaaaaaaaaaaaaaaaaaaaaaaaaaaaaaaaaaaaaaaaaaaaaaaaaaaaaaaaaaaaaaaaaaaaaaaaaaaaaaaaaaaaaaaaaaaaaaaaaa";

const LONE_TAGS: [TagRef; 2] = [
    TagRef {
        kind: ADDS,
        keys: Keys::Alone,
    },
    TagRef {
        kind: REPORTS,
        keys: Keys::Alone,
    },
];

fn lone() -> Case {
    Case {
        version: 1,
        name: "total",
        families: 1,
        sort: Sort::Sum,
        keyed_family: false,
        keyed_kinds: false,
        at: At::Alone,
        height: 1,
        literal: None,
        texts: &["total "],
        rate: 10,
        slack: 0,
        tags: LONE_TAGS,
    }
}

fn changed(change: Change) -> Case {
    let mut case = lone();
    match change {
        Change::Nothing => {}
        Change::Version(version) => case.version = version,
        Change::Name(name) => case.name = name,
        Change::Families(families) => case.families = families,
        Change::Sort(sort) => case.sort = sort,
        Change::Keys(family, kinds, at) => {
            case.keyed_family = family;
            case.keyed_kinds = kinds;
            case.at = at;
        }
        Change::Height(height) => case.height = height,
        Change::Literal(number) => case.literal = Some(number),
        Change::Texts(texts) => case.texts = texts,
        Change::Rate(rate) => case.rate = rate,
        Change::Slack(slack) => case.slack = slack,
        Change::Tags(tags) => {
            case.keyed_family = true;
            case.keyed_kinds = true;
            case.at = At::OwnKey;
            case.tags = tags;
        }
    }
    case
}

/// Whether the small job with each change is accepted or not, as it should be.
fn expect_all(
    rt: &impl Abort,
    alloc: Global,
    cases: &[(&str, Change, bool)],
) -> Result<(), AllocError> {
    for (what, change, wanted) in cases {
        assert_eq!(rt; is_accepted(alloc, &changed(*change))?, *wanted, "{what}");
    }
    Ok(())
}

#[test]
fn versions_and_names(rt: HostRuntime) -> Result<(), Fail> {
    let cases = [
        ("a small job", Change::Nothing, true),
        ("version 2", Change::Version(2), true),
        ("version 0", Change::Version(0), false),
        ("version 3", Change::Version(3), true),
        ("version 4", Change::Version(4), false),
        ("an underscore", Change::Name("_"), true),
        ("no name", Change::Name(""), false),
        ("a digit first", Change::Name("9to5"), false),
        ("a reserved name", Change::Name("slack"), false),
        (
            "32 bytes",
            Change::Name("a2345678901234567890123456789012"),
            true,
        ),
        (
            "33 bytes",
            Change::Name("a23456789012345678901234567890123"),
            false,
        ),
        ("a kind's name", Change::Name("report"), false),
        ("a source's name", Change::Name("till"), false),
    ];
    expect_all(&rt, rt.alloc(), &cases)?;
    Ok(())
}

#[test]
fn families_cells_and_amounts(rt: HostRuntime) -> Result<(), Fail> {
    let cases = [
        ("64 families", Change::Families(64), true),
        ("65 families", Change::Families(65), false),
        ("a maximum", Change::Sort(Sort::Max), false),
        (
            "a number as key",
            Change::Keys(false, false, At::Fixed(0)),
            false,
        ),
        (
            "a key of an unkeyed family",
            Change::Keys(false, true, At::OwnKey),
            false,
        ),
        (
            "the key of an unkeyed kind",
            Change::Keys(true, false, At::OwnKey),
            false,
        ),
        (
            "an item of a kind without items",
            Change::Keys(true, true, At::OwnItem),
            false,
        ),
        (
            "a fixed key",
            Change::Keys(true, false, At::Fixed(65_535)),
            true,
        ),
        (
            "a key too great",
            Change::Keys(true, false, At::Fixed(65_536)),
            false,
        ),
        ("32 levels", Change::Height(32), true),
        ("33 levels", Change::Height(33), false),
        ("a literal", Change::Literal(0), true),
        ("a negative literal", Change::Literal(-1), false),
    ];
    expect_all(&rt, rt.alloc(), &cases)?;
    Ok(())
}

#[test]
fn templates_rates_and_slacks(rt: HostRuntime) -> Result<(), Fail> {
    let cases = [
        ("a template of 256 bytes", Change::Texts(&[LONGEST]), true),
        ("a template of 257 bytes", Change::Texts(&[TOO_LONG]), false),
        ("no plain piece", Change::Texts(&[]), true),
        ("an empty piece", Change::Texts(&[""]), false),
        ("two plain pieces", Change::Texts(&["total", " "]), false),
        ("a brace", Change::Texts(&["{"]), false),
        ("the greatest rate", Change::Rate(1_000_000_000), true),
        ("a rate too great", Change::Rate(1_000_000_001), false),
        ("the greatest slack", Change::Slack(60_000), true),
        ("a slack too great", Change::Slack(60_001), false),
    ];
    expect_all(&rt, rt.alloc(), &cases)?;
    Ok(())
}

/// The tags of a kind, if it is keyed.
const fn tags_of(kind: u32, keys: Keys) -> TagRef {
    TagRef { kind, keys }
}

#[test]
fn tags_that_may_be_listed(rt: HostRuntime) -> Result<(), Fail> {
    let reports = tags_of(REPORTS, Keys::One(0));
    let cases = [
        ("two kinds", Keys::Range(3, 9), reports, true),
        ("256 itags", Keys::Range(0, 254), reports, true),
        ("257 itags", Keys::Range(0, 255), reports, false),
        ("2^32 keys", Keys::Range(0, u32::MAX), reports, false),
        ("backwards", Keys::Range(4, 3), reports, false),
        ("the last key", Keys::One(65_535), reports, true),
        ("a key too great", Keys::One(65_536), reports, false),
        ("no key", Keys::Alone, reports, false),
        (
            "twice",
            Keys::One(7),
            tags_of(ADDS, Keys::Range(5, 7)),
            false,
        ),
        (
            "side by side",
            Keys::One(7),
            tags_of(ADDS, Keys::Range(5, 6)),
            true,
        ),
        (
            "no such kind",
            Keys::One(3),
            tags_of(2, Keys::One(0)),
            false,
        ),
    ];
    for (what, keys, second, wanted) in cases {
        let change = Change::Tags([tags_of(ADDS, keys), second]);
        expect_all(&rt, rt.alloc(), &[(what, change, wanted)])?;
    }
    Ok(())
}

fn is_accepted(alloc: Global, case: &Case) -> Result<bool, AllocError> {
    let depends = vec![in alloc;
        Depend {
            a: ADDS,
            b: REPORTS,
            same: false
        },
    ]?;
    let made = program(
        case.version,
        1,
        None,
        List::of(Vec::new(alloc)),
        List::of(families_of(alloc, case)?),
        List::of(kinds_of(alloc, case)?),
        List::of(depends),
        List::of(sources_of(alloc, case)?),
    );
    Ok(made.is_some())
}

fn families_of(alloc: Global, case: &Case) -> Result<Vec<Family>, AllocError> {
    let mut families = vec![in alloc; family(alloc, case.name, case.keyed_family, case.sort)?]?;
    for number in 1..case.families {
        let name = format!(in alloc; "f{number}")?;
        families.push(family(alloc, name.as_str(), false, Sort::Last)?)?;
    }
    Ok(families)
}

fn family(alloc: Global, name: &str, keyed: bool, sort: Sort) -> Result<Family, AllocError> {
    let name = Name::of(String::from_str(alloc, name)?);
    Ok(Family {
        name,
        keyed,
        list: None,
        sort,
    })
}

fn kinds_of(alloc: Global, case: &Case) -> Result<Vec<Kind>, AllocError> {
    let cell = CellRef {
        family: 0,
        at: case.at,
    };
    let adds = vec![in alloc; always(Act::Add(cell, expression(alloc, case)?))]?;
    let mut reports = vec![in alloc; always(Act::Emit(template(alloc, cell, case.texts)?))]?;
    reports.push(always(Act::Clear(cell)))?;
    let mut kinds = vec![in alloc; kind(alloc, "item", case.keyed_kinds, true, adds)?]?;
    kinds.push(kind(alloc, "report", case.keyed_kinds, false, reports)?)?;
    Ok(kinds)
}

fn always(act: Act) -> Action {
    Action { act, guard: None }
}

fn kind(
    alloc: Global,
    name: &str,
    keyed: bool,
    has_value: bool,
    actions: Vec<Action>,
) -> Result<Kind, AllocError> {
    let name = Name::of(String::from_str(alloc, name)?);
    Ok(Kind {
        name,
        keyed,
        has_item: false,
        list: None,
        has_value,
        actions: List::of(actions),
    })
}

fn expression(alloc: Global, case: &Case) -> Result<Expr, AllocError> {
    let mut expr = match case.literal {
        Some(number) => Expr::Lit(number),
        None => Expr::Value,
    };
    for _ in 1..case.height {
        expr = Expr::Neg(Box::new(alloc, expr)?);
    }
    Ok(expr)
}

fn template(alloc: Global, cell: CellRef, texts: &[&str]) -> Result<List<Piece>, AllocError> {
    let mut pieces = Vec::new(alloc);
    for text in texts {
        pieces.push(Piece::Plain(Text::of(String::from_str(alloc, *text)?)))?;
    }
    pieces.push(Piece::Read(cell))?;
    Ok(List::of(pieces))
}

fn sources_of(alloc: Global, case: &Case) -> Result<Vec<Source>, AllocError> {
    let name = Name::of(String::from_str(alloc, "till")?);
    let file = Text::of(String::from_str(alloc, "till.csv")?);
    let tags = List::of(case.tags.to_vec(alloc)?);
    Ok(vec![in alloc;
        Source {
            name,
            file,
            every: None,
            rate: case.rate,
            slack: case.slack,
            tags
        },
    ]?)
}
