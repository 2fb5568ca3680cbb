//! A job whose parts are examined one by one once it is read.

use flu_model::{Depend, Keys, Sort, TagRef};
use flu_parse::read_job;
use std::test::Fail;

/// A job that has each sort of cell, each action, and keys, a guard, a slack and both kinds of dependency.
const JOB_ALL: &str = "version 2
cell price last
cell views keyed sum
cell hi max
tag quote int
tag view keyed int
tag tick none
depends quote view
depends view view same
depends view tick all
on quote: set price value; raise hi value when value > 2
on view: add views[key] value * price; emit \"at {price} {views[7]}\"
on tick: flush views \"page {key} views {cell}\"; clear hi
source q \"q.csv\" rate 100 slack 250: quote
source web \"web file\": view[0..9], view[12], tick
";

#[test]
fn declarations_are_read(rt: HostRuntime) -> Result<(), Fail> {
    let p = read_job(rt.alloc(), JOB_ALL.as_bytes())?;
    assert_eq!(rt; p.version, 2);
    let families = [
        ("price", false, Sort::Last),
        ("views", true, Sort::Sum),
        ("hi", false, Sort::Max),
    ];
    assert_eq!(rt; p.families.items().len(), families.len());
    for (family, (name, keyed, sort)) in p.families.items().iter().zip(families) {
        assert_eq!(rt; family.name.as_str(), name);
        assert_eq!(rt; (family.keyed, family.sort), (keyed, sort));
    }
    let kinds = [
        ("quote", false, true, 2),
        ("view", true, true, 2),
        ("tick", false, false, 2),
    ];
    assert_eq!(rt; p.kinds.items().len(), kinds.len());
    for (kind, (name, keyed, has_value, actions)) in p.kinds.items().iter().zip(kinds) {
        assert_eq!(rt; kind.name.as_str(), name);
        assert_eq!(rt; (kind.keyed, kind.has_value), (keyed, has_value));
        assert_eq!(rt; kind.actions.items().len(), actions);
    }
    Ok(())
}

const fn depend(a: u32, b: u32, same: bool) -> Depend {
    Depend { a, b, same }
}

const fn tag(kind: u32, keys: Keys) -> TagRef {
    TagRef { kind, keys }
}

#[test]
fn dependencies_and_sources_are_read(rt: HostRuntime) -> Result<(), Fail> {
    let p = read_job(rt.alloc(), JOB_ALL.as_bytes())?;
    let depends = [depend(0, 1, false), depend(1, 1, true), depend(1, 2, false)];
    assert_eq!(rt; p.depends.items(), depends.as_slice());
    let sources: [(&str, &str, u64, u64, &[TagRef]); 2] = [
        ("q", "q.csv", 100, 250, &[tag(0, Keys::Alone)]),
        (
            "web",
            "web file",
            1,
            0,
            &[
                tag(1, Keys::Range(0, 9)),
                tag(1, Keys::One(12)),
                tag(2, Keys::Alone),
            ],
        ),
    ];
    assert_eq!(rt; p.sources.items().len(), sources.len());
    for (source, (name, file, rate, slack, tags)) in p.sources.items().iter().zip(sources) {
        assert_eq!(rt; source.name.as_str(), name);
        assert_eq!(rt; source.file.as_str(), file);
        assert_eq!(rt; (source.rate, source.slack), (rate, slack));
        assert_eq!(rt; source.tags.items(), tags);
    }
    Ok(())
}
