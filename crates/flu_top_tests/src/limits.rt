//! The places at which texts exceed limits.

use flu_hints::limit_place;
use flu_model::What;
use std::alloc::{AllocError, Global};
use std::test::Fail;

// A prefix, and after it a piece this many times.
fn text_of(alloc: Global, front: &str, times: u32, piece: &str) -> Result<String, AllocError> {
    let mut text = String::from_str(alloc, front)?;
    for _ in 0..times {
        text.push_str(piece)?;
    }
    Ok(text)
}

#[test]
fn limits_are_passed_at_places(rt: HostRuntime) -> Result<(), Fail> {
    // what is before the place, as a prefix and a piece this many times; what is at it; the limit, and the count of the answer
    let cases = [
        ("", 64, "cell c sum\n", "cell z sum", What::Families, 65),
        (
            "cell c sum ",
            64,
            "tag t int\n",
            "tag z int",
            What::Kinds,
            65,
        ),
        (
            "",
            64,
            "source s \"s\": t\n",
            "source z \"z\": t",
            What::Sources,
            65,
        ),
        (
            "source s \"s\" rate ",
            0,
            "",
            "1000000001: t",
            What::Rate,
            1_000_000_001,
        ),
        (
            "source s \"s\" slack ",
            0,
            "",
            "60001: t",
            What::Slack,
            60_001,
        ),
        (
            "source s \"s\": t[65535], t[",
            0,
            "",
            "65536]",
            What::Key,
            65_536,
        ),
        (
            "on t: emit \"{a[6]} 65536\"; emit ",
            0,
            "",
            "\"{a[65536]}\"",
            What::Key,
            65_536,
        ),
        ("on t: add c ", 64, "(", "- 1", What::Nesting, 65),
        ("on t: ", 32, "clear c; ", "clear c", What::Actions, 33),
        (
            "source a \"a\": t[0..127], u[0..126], v, ",
            0,
            "",
            "w",
            What::Itags,
            257,
        ),
        ("on t: clear c; ", 0, "", "add c 1", What::Height, 33),
        (
            "names a: \"names\" ",
            63,
            "names l: \"a\"\n",
            "names z: \"a\"",
            What::Lists,
            65,
        ),
        (
            "names b: \"b\" names a: ",
            65_536,
            "\"a\", ",
            "\"z\"",
            What::Names,
            65_537,
        ),
        ("", 127, "node a: -> b c\n", "node z: t", What::Nodes, 128),
        (
            "node a: -> b x node b: -> c x node c: -> d x node d: -> e x node e: -> f x node f: -> g x node g: -> h x node ",
            0,
            "",
            "h: t",
            What::Depth,
            7,
        ),
        ("node a: ", 4096, "@s,", "t", What::Predicates, 4_097),
    ];
    for (front, times, piece, there, what, count) in cases {
        let before = text_of(rt.alloc(), front, times, piece)?;
        let mut text = text_of(rt.alloc(), before.as_str(), 1, there)?;
        if what == What::Height {
            text = text_of(rt.alloc(), text.as_str(), 32, " + 1")?;
        }
        let place = limit_place(rt.alloc(), what, count, text.as_str().as_bytes());
        assert_eq!(rt; place, Some(before.as_str().len()), "{what:?}");
    }
    Ok(())
}
