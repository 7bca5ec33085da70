//! How the steps of each command are written.

use arrayvec::ArrayVec;
use files::Command;
use steps::{Field, NAMES, Row, STEP_NAMES, StepName, WALK_FIELDS};

/// How a step is written.
#[derive(Clone, Copy)]
pub struct Form {
    /// Whether the number of the hart stands first.
    pub has_hart: bool,
    /// The name, which then follows; the steps of `walk` have none.
    pub name: Option<&'static str>,
    /// What the words behind these are.
    pub fields: &'static [Field],
}

impl Form {
    /// That of the steps of `walk`.
    pub fn of_walk() -> Form {
        Form {
            has_hart: false,
            name: None,
            fields: &WALK_FIELDS,
        }
    }

    /// That of the steps with this name in a file for `live`, or else for `run`.
    pub fn of_name(command: Command, name: &[u8], has_hart: bool) -> Option<Form> {
        let row = StepName::of(name)?.row();
        let fields = fields_of(command, row)?;
        Some(Form {
            has_hart,
            name: Some(row.word),
            fields,
        })
    }

    /// How many words stand before those of the fields.
    fn before(self) -> usize {
        usize::from(self.has_hart).saturating_add(usize::from(self.name.is_some()))
    }

    /// What the word of this index is, `None` if it is the name or a word too many.
    pub fn field_at(self, index: usize) -> Option<Field> {
        if self.has_hart && index == 0 {
            return Some(Field::Hart);
        }
        let before = self.before();
        if index < before {
            return None;
        }
        self.fields.get(index.saturating_sub(before)).copied()
    }

    /// How many words a step has.
    pub fn count(self) -> usize {
        self.before().saturating_add(self.fields.len())
    }
}

/// What the words after the name are in a file for `live`, or else for `run`.
fn fields_of(command: Command, row: Row) -> Option<&'static [Field]> {
    match command {
        Command::Live => row.live,
        Command::Run | Command::Walk => row.run,
    }
}

/// The names of the steps of `live`, or else of `run`.
pub fn names(command: Command) -> ArrayVec<&'static str, NAMES> {
    let mut names = ArrayVec::new();
    for index in 0..NAMES {
        let row = STEP_NAMES[index].row();
        if fields_of(command, row).is_some() {
            names.push(row.word);
        }
    }
    names
}
