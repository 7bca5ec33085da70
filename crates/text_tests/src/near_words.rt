//! Words that are nearly alike, and the one that is meant.
use crate::asserting::assert_of;
use checks::{is_near, nearest};

/// Two words, and the least number of edits that make one of the other.
const DISTANCES: [(&str, &str, u8); 12] = [
    ("", "", 0),
    ("load", "load", 0),
    ("loa", "load", 1),
    ("loadd", "load", 1),
    ("lead", "load", 1),
    ("", "ab", 2),
    // a swap of two letters
    ("laod", "load", 2),
    ("abcd", "dbca", 2),
    ("spces", "spares", 2),
    ("kitten", "sitting", 3),
    ("ab", "ba", 2),
    ("abc", "xyz", 3),
];

#[test]
fn distances(rt: HostRuntime) {
    for (word, other, edits) in DISTANCES {
        let (a, b) = (word.as_bytes(), other.as_bytes());
        for most in 0..6_u8 {
            assert!(rt;
                is_near(most, a, b) == (most >= edits),
                "{word} {other} {most}"
            );
            assert!(rt;
                is_near(most, b, a) == (most >= edits),
                "{other} {word} {most}"
            );
        }
    }
}

const NAMES: [&str; 4] = ["take", "ack", "make", "harts"];

/// A word that is a name means itself. Where two names are one edit away, the first is meant.
#[test]
fn meant(rt: HostRuntime) {
    for (word, name) in [("ack", "ack"), ("bake", "take")] {
        assert_of(&rt, word, nearest(word, &NAMES) == Some(name));
    }
}
