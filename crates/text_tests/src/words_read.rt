//! Words, the empty number, and steps of `walk`.
use crate::asserting::assert_of;
use pte::{Access, Ctx, Mode};
use std::test::Fail;
use steps::{WalkStep, num, walk_step, words};

/// Words stand between blanks and tabs alone, so none is empty.
#[test]
fn words_of_texts(rt: HostRuntime) -> Result<(), Fail> {
    let alloc = rt.alloc();
    for (text, count) in [
        ("", 0),
        (" \t ", 0),
        ("a", 1),
        ("\ta  bc\td ", 3),
        ("a\nb", 1),
    ] {
        assert_of(&rt, text, words(alloc, text)?.len() == count);
    }
    let words = words(alloc, "\ta  bc\td ")?;
    assert!(rt;
        words.as_slice() == [b"a".as_slice(), b"bc".as_slice(), b"d".as_slice()].as_slice()
    );
    assert!(rt; num(b"".as_slice()) == None);
    Ok(())
}

/// With ample memory a text has its words, however many.
#[test]
fn words_of_a_long_text(rt: HostRuntime) -> Result<(), Fail> {
    let alloc = rt.alloc();
    let mut text = String::new(alloc);
    for _ in 0..100_000_u32 {
        text.push_str("a\t")?;
    }
    assert!(rt; words(alloc, text.as_str())?.len() == 100_000);
    Ok(())
}

#[test]
fn steps_of_walk(rt: HostRuntime) {
    let user = |sum, mxr| Ctx {
        mode: Mode::User,
        sum,
        mxr,
    };
    let supervisor = |sum, mxr| Ctx {
        mode: Mode::Super,
        sum,
        mxr,
    };
    for (text, ctx, access, va) in [
        (
            "u load 0x80403ABC",
            user(false, false),
            Access::Load,
            0x8040_3abc,
        ),
        (
            " s+sum+mxr\tstore 1 ",
            supervisor(true, true),
            Access::Store,
            1,
        ),
        ("u+mxr fetch 0", user(false, true), Access::Fetch, 0),
        ("s+sum load 0", supervisor(true, false), Access::Load, 0),
    ] {
        let step = WalkStep { ctx, access, va };
        assert_of(&rt, text, walk_step(text) == Some(step));
    }
}
