//! Files of the commands, whose answers are data of `svsim_examples`.

/// A root, two tables and a leaf: PPN 0x12345, with V, R, W, U, A and D.
pub const FILE: &str = r#"root = "0x80000"
frames = ["0x80000", "0x80001", "0x80002"]
words = ["0x80000 2 0x20000401", "0x80001 2 0x20000801", "0x80002 3 0x48D14D7"]
steps = ["u load 0x80403ABC"]
"#;

/// Four tables of Sv48 and a leaf: PPN 0x12345, with V, R, W, U, A and D.
pub const DEEP_WALK: &str = r#"mode = "sv48"
frames = ["0x80000", "0x80001", "0x80002", "0x80003"]
words = ["0x80000 1 0x20000401", "0x80001 2 0x20000801", "0x80002 2 0x20000C01", "0x80003 3 0x48D14D7"]
steps = ["u load 0x8080403ABC", "u store 0x800000000000"]
"#;

/// A page of 2 MiB that hart 0 maps and unmaps, and that hart 1 fills, still hits and then drops.
pub const SHOOTDOWN: &str = r#"harts = 2
steps = [
    "0 map 0 2M:0x400000 0x200 rwuad", "0 map 0 2M:0x400000 0x200 rwuad",
    "1 begin u load 0x5fffff", "1 load", "1 load",
    "0 unmap 0 2M:0x400000 0,1", "1 begin u load 0x5fffff",
    "0 post 0 1", "1 take 0", "1 begin u load 0x5fffff", "1 servefence", "1 ack",
    "1 begin u load 0x5fffff", "1 load", "1 load",
    "0 collect 0 1", "0 finish 0", "0 ackself 0", "0 finish 0",
]
"#;

/// A page of 512 GiB that is unmapped while hart 1 holds it.
pub const DEEP_RUN: &str = r#"harts = 2
mode = "sv48"
steps = [
    "0 map 0 512G:0x8000000000 0x10000000 rwuad", "1 begin u load 0x8080403abc", "1 load",
    "0 unmap 0 512G:0x8000000000 0,1", "0 post 0 1", "1 take 0", "1 servefence", "1 ack", "0 ackself 0", "0 collect 0 1",
    "1 begin u load 0x8080403abc", "1 load",
]
"#;

/// A space that is retired and created again, with the table frame that it had.
pub const SPACE_RUN: &str = r#"harts = 2
spaces = ["0 1", "0 2"]
steps = [
    "0 map 1 4K:0x1000 0x100 ruad", "0 retire 1", "0 ackself 0", "0 post 0 1", "1 take 0", "1 servefence", "1 ack",
    "0 reclaim 1", "0 collect 0 1", "0 reclaim 1", "0 create 1 2", "0 map 1 4K:0x1000 0x101 ruad", "1 switch 1",
]
"#;

pub const FLUSH: &str = "harts = 2\nsetup = [\"0 flush all 0\"]\nscripts = [[\"ackself 0\"]]";

/// Two harts unmap a page of their own space at once. Each waits for the other to serve, so no
/// order in which one script goes before the other gives these lines.
pub const BOTH_UNMAP: &str = r#"harts = 2
spaces = ["0 1", "1 2"]
setup = [
    "0 map 0 4K:0x1000 0x100 ruad", "0 map 0 4K:0x1000 0x100 ruad", "0 map 0 4K:0x1000 0x100 ruad",
    "1 map 1 4K:0x2000 0x200 ruad", "1 map 1 4K:0x2000 0x200 ruad", "1 map 1 4K:0x2000 0x200 ruad",
]
scripts = [
    ["unmap 0 4K:0x1000 0,1", "post 0 1", "ackself 0", "wait 0"],
    ["unmap 1 4K:0x2000 0,1", "post 0 0", "ackself 0", "wait 0"],
]
turns = 1000000000
"#;

pub const BOTH_UNMAP_LINES: &str = "setup 1 table 0x80003
setup 2 table 0x80004
setup 3 leaf
setup 4 table 0x8000b
setup 5 table 0x8000c
setup 6 leaf
0 1 opened 0
0 2 ok
0 3 waiting 1
0 4 done
1 1 opened 0
1 2 ok
1 3 waiting 0
1 4 done
pair 0 1 accepted 1 taken 1 waiting 0
pair 1 0 accepted 1 taken 1 waiting 0
";

/// A page of 512 GiB that is unmapped while hart 1 holds it; hart 1 serves once its script has
/// ended.
pub const DEEP_LIVE: &str = r#"harts = 2
mode = "sv48"
setup = ["0 map 0 512G:0x8000000000 0x10000000 rwuad", "1 translate u load 0x8080403abc"]
scripts = [["unmap 0 512G:0x8000000000 0,1", "post 0 1", "ackself 0", "wait 0", "translate u load 0x8080403abc"]]
"#;

/// A frame that is given to another process too early.
pub const FRAME_USED_AGAIN: &str = r#"
harts = 3
spaces = ["0 1", "0 2"]
steps = [
    "0 map 0 4K:0x1000 0x100 rwuad",
    "0 map 0 4K:0x1000 0x100 rwuad",
    "0 map 0 4K:0x1000 0x100 rwuad",
    "1 begin u store 0x1008",
    "1 load",
    "1 load",
    "1 load",
    "0 unmap 0 4K:0x1000 0,1",
    "0 post 0 1",
    "0 ackself 0",
    "0 map 1 4K:0x5000 0x100 rwuad",
    "0 map 1 4K:0x5000 0x100 rwuad",
    "0 map 1 4K:0x5000 0x100 rwuad",
    "2 switch 1",
    "2 begin u load 0x5008",
    "2 load",
    "2 load",
    "2 load",
    "1 begin u store 0x1008",
    "1 take 0",
    "1 servefence",
    "1 ack",
    "1 begin u store 0x1008",
    "0 collect 0 1",
    "0 finish 0",
]
"#;

/// A page that hart 1 may still hold when its frame is given back.
pub const TRACE: &str = "watch 1 2 sv39\n\
    w 0 80000000 20000401\n\
    w 0 80001000 20000801\n\
    w 0 80002008 400d7\n\
    s 1 8000100000080000\n\
    w 0 80002008 0 @unmap\n\
    e 0 7\n\
    d 0 9\n\
    z 0 100 1\n";

/// What `watch_command` prints of it, under the name `a trace`.
pub const VERDICTS: &str =
    "a trace:9: free hart 1 may hold page 1000+1000 -> 100 rw-u- asid 1 root \
    80000, stale since line 6 by unmap; frames 100+1 given back\n8 records, 1 verdict: free 1\n";
