//! The job of a demo.

ghost use Rattle.std.specs.Prelude.{◌≡◌, ◌∷◌, [], IfOk};
ghost use Rattle.flu_gen.specs.DemoJob.{demo_families, view_actions, update_actions, tick_actions, always, of_key, keyed_kind, demo_kinds, depend};
ghost use Rattle.flu_gen.specs.DemoJob.{demo_depends, ten_keys, source, demo_sources, IsDemoJob};

use flu_model::{
    Act, Action, At, CellRef, Depend, Expr, Family, Keys, Kind, List, Name, NameList, Piece,
    Program, Sort, Source, TagRef, Text,
};
use std::alloc::{AllocError, Global};

/// The number of the family `views`.
const VIEWS: u32 = 0;

/// The number of the family `zip`.
const ZIP: u32 = 1;

/// The number of the kind `view`.
const VIEW: u32 = 0;

/// The number of the kind `update`.
const UPDATE: u32 = 1;

/// The number of the kind `tick`.
const TICK: u32 = 2;

/// The job of a demo: views of ten pages of a site and of an app, updates of these pages in the app, and a clock whose ticks print the
/// views of each page since the tick before.
///
/// # Errors
///
/// Only if memory runs out.
pub fn demo_job(alloc: Global) -> Result<Program, AllocError>
    ensures { IfOk result IsDemoJob }
{
    let families = families(alloc)?;
    let kinds = kinds(alloc)?;
    let depends = depends(alloc)?;
    let sources = sources(alloc)?;
    let lists = List::of(Vec::new(alloc));
    Ok(job_of(lists, families, kinds, depends, sources))
}

// The job of these parts, which keep the rules of the language.
fn job_of(
    lists: List<NameList>,
    families: List<Family>,
    kinds: List<Kind>,
    depends: List<Depend>,
    sources: List<Source>,
) -> Program
    requires lists { lists ≡ [] }
    requires families { families ≡ demo_families }
    requires kinds { kinds ≡ demo_kinds }
    requires depends { depends ≡ demo_depends }
    requires sources { sources ≡ demo_sources }
    ensures { IsDemoJob result }
{
    Program {
        version: 1,
        ties: 1,
        iso: None,
        lists,
        families,
        kinds,
        depends,
        sources,
    }
}

fn name_of(alloc: Global, name: &str) -> Result<Name, AllocError>
    ensures { IfOk result (λ n. n ≡ name.now) }
{
    let owned = String::from_str(alloc, name)?;
    Ok(Name::of(owned))
}

fn text_of(alloc: Global, text: &str) -> Result<Text, AllocError>
    ensures { IfOk result (λ t. t ≡ text.now) }
{
    let owned = String::from_str(alloc, text)?;
    Ok(Text::of(owned))
}

// ---- families

fn families(alloc: Global) -> Result<List<Family>, AllocError>
    ensures { IfOk result (λ l. l ≡ demo_families) }
{
    let views = Family {
        name: name_of(alloc, "views")?,
        keyed: true,
        list: None,
        sort: Sort::Sum,
    };
    let zip = Family {
        name: name_of(alloc, "zip")?,
        keyed: true,
        list: None,
        sort: Sort::Last,
    };
    let families = vec![in alloc; views, zip]?;
    Ok(List::of(families))
}

// ---- kinds

fn of_key(family: u32) -> CellRef
    ensures { result ≡ of_key family }
{
    CellRef {
        family,
        at: At::OwnKey,
    }
}

fn always(act: Act) -> Action
    ensures { result ≡ always act }
{
    Action { act, guard: None }
}

// The piece of a template that is written as it is.
fn plain(alloc: Global, text: &str) -> Result<Piece, AllocError>
    ensures { IfOk result (λ piece. piece ≡ Piece.Plain text.now) }
{
    let owned = text_of(alloc, text)?;
    Ok(Piece::Plain(owned))
}

fn view_actions(alloc: Global) -> Result<List<Action>, AllocError>
    ensures { IfOk result (λ l. l ≡ view_actions) }
{
    let counts = always(Act::Add(of_key(VIEWS), Expr::Value));
    let actions = vec![in alloc; counts]?;
    Ok(List::of(actions))
}

fn update_actions(alloc: Global) -> Result<List<Action>, AllocError>
    ensures { IfOk result (λ l. l ≡ update_actions) }
{
    let was = plain(alloc, "was ")?;
    let pieces = vec![in alloc; was, Piece::Read(of_key(ZIP))]?;
    let tells = always(Act::Emit(List::of(pieces)));
    let keeps = always(Act::Set(of_key(ZIP), Expr::Value));
    let actions = vec![in alloc; tells, keeps]?;
    Ok(List::of(actions))
}

fn tick_actions(alloc: Global) -> Result<List<Action>, AllocError>
    ensures { IfOk result (λ l. l ≡ tick_actions) }
{
    let page = plain(alloc, "page ")?;
    let views = plain(alloc, " views ")?;
    let pieces = vec![in alloc; page, Piece::Key, views, Piece::CellValue]?;
    let tells = always(Act::Flush(VIEWS, List::of(pieces)));
    let actions = vec![in alloc; tells]?;
    Ok(List::of(actions))
}

// A kind that has a tag for each key, and a value.
fn keyed_kind(alloc: Global, name: &str, actions: List<Action>) -> Result<Kind, AllocError>
    ensures { IfOk result (λ k. k ≡ keyed_kind name.now actions) }
{
    let name = name_of(alloc, name)?;
    Ok(Kind {
        name,
        keyed: true,
        has_item: false,
        list: None,
        has_value: true,
        actions,
    })
}

fn kinds(alloc: Global) -> Result<List<Kind>, AllocError>
    ensures { IfOk result (λ l. l ≡ demo_kinds) }
{
    let view = keyed_kind(alloc, "view", view_actions(alloc)?)?;
    let update = keyed_kind(alloc, "update", update_actions(alloc)?)?;
    let tick = Kind {
        name: name_of(alloc, "tick")?,
        keyed: false,
        has_item: false,
        list: None,
        has_value: false,
        actions: tick_actions(alloc)?,
    };
    let kinds = vec![in alloc; view, update, tick]?;
    Ok(List::of(kinds))
}

// ---- dependencies

fn depend(a: u32, b: u32, same: bool) -> Depend
    ensures { result ≡ depend a b same }
{
    Depend { a, b, same }
}

fn depends(alloc: Global) -> Result<List<Depend>, AllocError>
    ensures { IfOk result (λ l. l ≡ demo_depends) }
{
    let updates = depend(UPDATE, UPDATE, true);
    let views = depend(VIEW, TICK, false);
    let ticks = depend(TICK, TICK, false);
    let depends = vec![in alloc; updates, views, ticks]?;
    Ok(List::of(depends))
}

// ---- sources

fn ten_keys(kind: u32) -> TagRef
    ensures { result ≡ ten_keys kind }
{
    TagRef {
        kind,
        keys: Keys::Range(0, 9),
    }
}

fn source(
    alloc: Global,
    name: &str,
    file: &str,
    rate: u64,
    tags: Vec<TagRef>,
) -> Result<Source, AllocError>
    ensures { IfOk result (λ s. s ≡ source name.now file.now rate tags.items) }
{
    let name = name_of(alloc, name)?;
    let file = text_of(alloc, file)?;
    Ok(Source {
        name,
        file,
        every: None,
        rate,
        slack: 0,
        tags: List::of(tags),
    })
}

fn sources(alloc: Global) -> Result<List<Source>, AllocError>
    ensures { IfOk result (λ l. l ≡ demo_sources) }
{
    let of_web = vec![in alloc; ten_keys(VIEW)]?;
    let web = source(alloc, "web", "web.csv", 1000, of_web)?;
    let of_app = vec![in alloc; ten_keys(VIEW), ten_keys(UPDATE)]?;
    let app = source(alloc, "app", "app.csv", 500, of_app)?;
    let tick = TagRef {
        kind: TICK,
        keys: Keys::Alone,
    };
    let of_clock = vec![in alloc; tick]?;
    let clock = source(alloc, "clock", "clock.csv", 1, of_clock)?;
    let sources = vec![in alloc; web, app, clock]?;
    Ok(List::of(sources))
}
