//! The table of keys: the name of each, the kinds of files that have it, and what its value is.
ghost use Rattle.std.specs.Prelude.{◌≡◌, map};
ghost use Rattle.files.specs.Keys.{is_known};
ghost use Rattle.files.specs.declared.key_table.Kind.TheVariants as kinds;
ghost use Rattle.files.specs.KeyTable.{command_name, keys_of, kind_of, name_of, names_of, own_keys};

use pte::PPN_LIMIT;
use spaces::{Config, MAX_CAPACITY, MAX_HARTS, MAX_WINDOW};

/// The kinds of files, each named by the command that plays it.
#[derive(Clone, Copy, Debug, PartialEq, Eq)]
pub enum Command {
    Walk,
    Run,
    Live,
}

/// A key of a file.
#[derive(Clone, Copy, Debug, PartialEq, Eq)]
pub enum Key {
    /// How many harts there are.
    Harts,
    /// How many slots at the end of each root are the kernel's.
    Window,
    /// The PPN of the first table frame.
    Base,
    /// How many requests of one hart to another may be accepted and not yet collected.
    Capacity,
    /// The spare frames of each hart, for new tables.
    Spares,
    /// The hart that stores to the tables of each address space, and its ASID.
    Spaces,
    /// The PPN of the root table.
    Root,
    /// The PPNs of the table frames.
    Frames,
    /// The words of the table frames; all others are 0.
    Words,
    Steps,
    /// The steps that are made before the harts run.
    Setup,
    /// The steps of each hart.
    Scripts,
    /// The most turns of a wait, and of a hart whose script has ended.
    Turns,
    /// The scheme of virtual addresses.
    Mode,
}

/// What the value of a key is, and the number that stands for one that is left out.
#[derive(Clone, Copy, Debug, PartialEq, Eq)]
pub enum Kind {
    /// A whole number from `least` to `most`.
    Whole { least: u32, most: u32, default: u32 },
    /// A text of one number, the PPN of a frame: below `limit` if there is one.
    Ppn { limit: Option<u64>, default: u64 },
    /// A text of one word, the name of a scheme of translation.
    Scheme,
    /// An array of whole numbers, one for each hart.
    Spares,
    /// An array of texts.
    Texts,
    /// An array of texts for each hart.
    Scripts,
}

/// The turns of a wait where no key says how many.
pub const DEFAULT_TURNS: u32 = 1_000_000;

/// The most keys that a command knows.
pub const MOST_KEYS: usize = 10;

/// The keys of the files for `walk`, in the order in which they are read.
const WALK_KEYS: [Key; 5] = [Key::Root, Key::Frames, Key::Words, Key::Steps, Key::Mode];

/// The keys of the files for `run`.
const RUN_KEYS: [Key; 8] = [
    Key::Harts,
    Key::Window,
    Key::Base,
    Key::Capacity,
    Key::Spares,
    Key::Spaces,
    Key::Steps,
    Key::Mode,
];

/// The keys of the files for `live`.
const LIVE_KEYS: [Key; MOST_KEYS] = [
    Key::Harts,
    Key::Window,
    Key::Base,
    Key::Capacity,
    Key::Spares,
    Key::Spaces,
    Key::Setup,
    Key::Scripts,
    Key::Turns,
    Key::Mode,
];

impl Command {
    /// The word of the command line.
    pub fn name(self) -> &'static str
        ensures { result.now ≡ command_name self }
    {
        match self {
            Command::Walk => "walk",
            Command::Run => "run",
            Command::Live => "live",
        }
    }

    /// The keys that it knows, in the order in which they are read.
    pub fn keys(self) -> &'static [Key]
        ensures { result.now ≡ keys_of self }
    {
        match self {
            Command::Walk => &WALK_KEYS,
            Command::Run => &RUN_KEYS,
            Command::Live => &LIVE_KEYS,
        }
    }

    /// The keys that no other command knows.
    pub fn own_keys(self) -> &'static [Key]
        ensures { result.now ≡ own_keys self }
    {
        match self {
            Command::Walk => &[Key::Root, Key::Frames, Key::Words],
            Command::Run => &[],
            Command::Live => &[Key::Setup, Key::Scripts, Key::Turns],
        }
    }

    /// Whether it knows a key of this name.
    pub fn knows(self, name: &str) -> bool
        ensures { result ≡ is_known (names_of self) name.now }
    {
        has_name(self.keys(), name)
    }
}

/// Whether one of the keys has this name.
fn has_name(keys: &[Key], name: &str) -> bool
    ensures { result ≡ is_known (map name_of keys.now) name.now }
{
    match keys {
        [] => false,
        [key, rest @ ..] => name == key.name() || has_name(rest, name),
    }
}

impl Key {
    /// Its name in a file.
    pub fn name(self) -> &'static str
        ensures { result.now ≡ name_of self }
    {
        match self {
            Key::Harts => "harts",
            Key::Window => "window",
            Key::Base => "base",
            Key::Capacity => "capacity",
            Key::Spares => "spares",
            Key::Spaces => "spaces",
            Key::Root => "root",
            Key::Frames => "frames",
            Key::Words => "words",
            Key::Steps => "steps",
            Key::Setup => "setup",
            Key::Scripts => "scripts",
            Key::Turns => "turns",
            Key::Mode => "mode",
        }
    }

    /// What its value is.
    pub fn kind(self) -> Kind
        ensures { result ≡ kind_of self }
    {
        let default = Config::default();
        match self {
            Key::Harts => from_one(MAX_HARTS as u32, u32::from(default.harts)),
            Key::Window => from_one(u32::from(MAX_WINDOW), u32::from(default.window)),
            Key::Capacity => from_one(u32::from(MAX_CAPACITY), u32::from(default.capacity)),
            Key::Turns => from_one(u32::MAX, DEFAULT_TURNS),
            Key::Base => ppn(None, default.base),
            Key::Root => ppn(Some(PPN_LIMIT), default.base),
            Key::Mode => Kind::Scheme,
            Key::Spares => Kind::Spares,
            Key::Spaces | Key::Frames | Key::Words | Key::Steps | Key::Setup => Kind::Texts,
            Key::Scripts => Kind::Scripts,
        }
    }
}

/// A whole number from 1 on.
fn from_one(most: u32, default: u32) -> Kind
    ensures { result ≡ kinds.Whole 1 most default }
{
    Kind::Whole {
        least: 1,
        most,
        default,
    }
}

fn ppn(limit: Option<u64>, default: u64) -> Kind
    ensures { result ≡ kinds.Ppn limit default }
{
    Kind::Ppn { limit, default }
}
