//! The table of steps: the word of each, and what the words after it are.
ghost use Rattle.std.specs.Prelude.{◌≡◌, Some, option_map};
ghost use Rattle.steps.specs.Likely.{likely, likely_of};
ghost use Rattle.steps.specs.Table.{label_of, live_fields, name_of, run_fields, word_of};
ghost use Rattle.steps.specs.declared.table.StepName.TheVariants.{Collect};

/// What a word of a step is.
#[derive(Clone, Copy, Debug, PartialEq, Eq)]
pub enum Field {
    /// The number of the hart that makes the step.
    Hart,
    /// The mode, SUM and MXR.
    Mode,
    /// What the access does.
    Access,
    /// A virtual address, canonical or not.
    Va,
    /// The same in a step of `walk`.
    Address,
    /// A space, or the kernel window.
    Place,
    /// A size, and the address of a page.
    Page,
    /// A physical page number.
    Ppn,
    /// The flags of a leaf.
    Flags,
    /// The harts that an order names.
    Named,
    /// A space, or all.
    Scope,
    /// What stands for rs1 of a fence (privileged manual 4.2.1).
    Rs1,
    /// What stands for rs2 of a fence.
    Rs2,
    /// A space.
    Space,
    /// An ASID.
    Asid,
    /// A ticket.
    Ticket,
    /// The hart that a request comes from.
    From,
    /// The hart that a request goes to.
    To,
}

/// The steps of `run` and of `live`, by the first word of each, after the number of its hart where
/// one stands there.
#[derive(Clone, Copy, Debug, PartialEq, Eq)]
pub enum StepName {
    Begin,
    Translate,
    Load,
    Map,
    Unmap,
    Protect,
    Flush,
    Switch,
    Fence,
    Post,
    Take,
    Serve,
    ServeFence,
    Ack,
    AckSelf,
    Collect,
    Finish,
    Close,
    Wait,
    Retire,
    Reclaim,
    Create,
}

/// How many names there are.
pub const NAMES: usize = 22;

/// All names, in the order of the table.
pub const STEP_NAMES: [StepName; NAMES] = [
    StepName::Begin,
    StepName::Translate,
    StepName::Load,
    StepName::Map,
    StepName::Unmap,
    StepName::Protect,
    StepName::Flush,
    StepName::Switch,
    StepName::Fence,
    StepName::Post,
    StepName::Take,
    StepName::Serve,
    StepName::ServeFence,
    StepName::Ack,
    StepName::AckSelf,
    StepName::Collect,
    StepName::Finish,
    StepName::Close,
    StepName::Wait,
    StepName::Retire,
    StepName::Reclaim,
    StepName::Create,
];

/// The fields of a step of `walk`, which has no name.
pub const WALK_FIELDS: [Field; 3] = [Field::Mode, Field::Access, Field::Address];

/// A row of the table.
#[derive(Clone, Copy, Debug)]
pub struct Row {
    /// The name, as it is written.
    pub word: &'static str,
    /// What the words after the name are in a file for `run`, `None` where it has no such step.
    pub run: Option<&'static [Field]>,
    /// The same in a file for `live`.
    pub live: Option<&'static [Field]>,
}

impl Field {
    /// What stands for the word where a form is shown, as `PAGE`.
    pub fn label(self) -> &'static str
        ensures { result.now ≡ label_of self }
    {
        match self {
            Field::Hart => "H",
            Field::Mode => "MODE",
            Field::Access => "ACCESS",
            Field::Va => "VA",
            Field::Address => "ADDRESS",
            Field::Place => "PLACE",
            Field::Page => "PAGE",
            Field::Ppn => "PPN",
            Field::Flags => "FLAGS",
            Field::Named => "NAMED",
            Field::Scope => "SCOPE",
            Field::Rs1 => "RS1",
            Field::Rs2 => "RS2",
            Field::Space => "SPACE",
            Field::Asid => "ASID",
            Field::Ticket => "TICKET",
            Field::From => "FROM",
            Field::To => "TO",
        }
    }
}

impl Row {
    /// A step of `run` and of `live`.
    fn both(word: &'static str, fields: &'static [Field]) -> Row
        ensures word { result.word.now ≡ word.now }
        ensures run { option_map (λ row. row.now) result.run ≡ Some fields.now }
        ensures live { option_map (λ row. row.now) result.live ≡ Some fields.now }
    {
        Row {
            word,
            run: Some(fields),
            live: Some(fields),
        }
    }

    /// A step of `run` alone.
    fn run(word: &'static str, fields: &'static [Field]) -> Row
        ensures word { result.word.now ≡ word.now }
        ensures run { option_map (λ row. row.now) result.run ≡ Some fields.now }
        ensures live { result.live ≡ None }
    {
        Row {
            word,
            run: Some(fields),
            live: None,
        }
    }

    /// A step of `live` alone.
    fn live(word: &'static str, fields: &'static [Field]) -> Row
        ensures word { result.word.now ≡ word.now }
        ensures run { result.run ≡ None }
        ensures live { option_map (λ row. row.now) result.live ≡ Some fields.now }
    {
        Row {
            word,
            run: None,
            live: Some(fields),
        }
    }

    /// `collect`, which names the ticket alone in `live`, and in `run` a hart too.
    fn collect() -> Row
        ensures word { result.word.now ≡ word_of Collect }
        ensures run { option_map (λ row. row.now) result.run ≡ run_fields Collect }
        ensures live { option_map (λ row. row.now) result.live ≡ live_fields Collect }
    {
        Row {
            word: "collect",
            run: Some(&[Field::Ticket, Field::From]),
            live: Some(&[Field::Ticket]),
        }
    }
}

impl StepName {
    /// Its row of the table.
    pub fn row(self) -> Row
        ensures word { result.word.now ≡ word_of self }
        ensures run { option_map (λ row. row.now) result.run ≡ run_fields self }
        ensures live { option_map (λ row. row.now) result.live ≡ live_fields self }
    {
        match self {
            StepName::Begin => Row::run("begin", &[Field::Mode, Field::Access, Field::Va]),
            StepName::Translate => Row::live("translate", &[Field::Mode, Field::Access, Field::Va]),
            StepName::Load => Row::run("load", &[]),
            StepName::Map => {
                Row::both(
                    "map",
                    &[Field::Place, Field::Page, Field::Ppn, Field::Flags],
                )
            }
            StepName::Unmap => Row::both("unmap", &[Field::Place, Field::Page, Field::Named]),
            StepName::Protect => {
                Row::both(
                    "protect",
                    &[Field::Place, Field::Page, Field::Flags, Field::Named],
                )
            }
            StepName::Flush => Row::both("flush", &[Field::Scope, Field::Named]),
            StepName::Switch => Row::both("switch", &[Field::Space]),
            StepName::Fence => Row::both("fence", &[Field::Rs1, Field::Rs2]),
            StepName::Post => Row::both("post", &[Field::Ticket, Field::To]),
            StepName::Take => Row::run("take", &[Field::From]),
            StepName::Serve => Row::live("serve", &[Field::From]),
            StepName::ServeFence => Row::run("servefence", &[]),
            StepName::Ack => Row::run("ack", &[]),
            StepName::AckSelf => Row::both("ackself", &[Field::Ticket]),
            StepName::Collect => Row::collect(),
            StepName::Finish => Row::both("finish", &[Field::Ticket]),
            StepName::Close => Row::both("close", &[Field::To]),
            StepName::Wait => Row::live("wait", &[Field::Ticket]),
            StepName::Retire => Row::run("retire", &[Field::Space]),
            StepName::Reclaim => Row::run("reclaim", &[Field::Space]),
            StepName::Create => Row::run("create", &[Field::Space, Field::Asid]),
        }
    }

    /// The name that a word is.
    #[inline(always)]
    pub fn of(word: &[u8]) -> Option<StepName>
        ensures { result ≡ name_of word.now }
    {
        let name = likely_for(word);
        if word == name.row().word.as_bytes() {
            Some(name)
        } else {
            None
        }
    }
}

/// The only name that a word can be.
#[inline(always)]
#[tactic(auto, unfolding(crate::specs::Likely::likely_of))]
fn likely_for(word: &[u8]) -> StepName
    ensures { result ≡ likely_of word.now }
{
    let first = word.first().copied().unwrap_or(0);
    let second = word.get(1).copied().unwrap_or(0);
    likely(first, second, word.len())
}

/// The only name that can have these letters in front and this length.
#[inline(always)]
fn likely(first: u8, second: u8, length: usize) -> StepName
    ensures { result ≡ likely first second length }
{
    match first {
        b'b' => StepName::Begin,
        b't' if length == 4 => StepName::Take,
        b't' => StepName::Translate,
        b'l' => StepName::Load,
        b'm' => StepName::Map,
        b'u' => StepName::Unmap,
        b'p' if length == 4 => StepName::Post,
        b'p' => StepName::Protect,
        b'f' if length == 6 => StepName::Finish,
        b'f' if second == b'l' => StepName::Flush,
        b'f' => StepName::Fence,
        b's' if length == 10 => StepName::ServeFence,
        b's' if length == 6 => StepName::Switch,
        b's' => StepName::Serve,
        b'a' if length == 3 => StepName::Ack,
        b'a' => StepName::AckSelf,
        b'c' if length == 7 => StepName::Collect,
        b'c' if length == 5 => StepName::Close,
        b'c' => StepName::Create,
        b'r' if length == 6 => StepName::Retire,
        b'r' => StepName::Reclaim,
        _ => StepName::Wait,
    }
}
