// The groups of cases, and how many cases of each came out right.
use std::io;
use std::io::Write;

#[derive(Clone, Copy)]
pub enum Group {
    Fnv,
    Pseudonym,
    Decimal,
    Hexadecimal,
    Path,
    Action,
    Apply,
    Policy,
    Append,
    Builtin,
    Padded,
    Times,
    Decode,
    Encode,
    Lower,
    Word,
    Leaves,
    Repeated,
    EntryRedact,
    EntryPrint,
    EntryAppend,
    EntryBuiltin,
    EntryPayload,
}

// How many groups there are.
const GROUPS: usize = 23;

// The groups, each with the name that its lines begin with.
const NAMES: [(&str, Group); GROUPS] = [
    ("fnv", Group::Fnv),
    ("pseudonym", Group::Pseudonym),
    ("decimal", Group::Decimal),
    ("hexadecimal", Group::Hexadecimal),
    ("path", Group::Path),
    ("action", Group::Action),
    ("apply", Group::Apply),
    ("policy", Group::Policy),
    ("append", Group::Append),
    ("builtin", Group::Builtin),
    ("padded", Group::Padded),
    ("times", Group::Times),
    ("decode", Group::Decode),
    ("encode", Group::Encode),
    ("lower", Group::Lower),
    ("word", Group::Word),
    ("leaves", Group::Leaves),
    ("repeated", Group::Repeated),
    ("entry-redact", Group::EntryRedact),
    ("entry-print", Group::EntryPrint),
    ("entry-append", Group::EntryAppend),
    ("entry-builtin", Group::EntryBuiltin),
    ("entry-payload", Group::EntryPayload),
];

// How many cases came out right, of how many.
#[derive(Clone, Copy)]
struct Score {
    right: u64,
    all: u64,
}

const NONE: Score = Score { right: 0, all: 0 };

impl Score {
    fn count(&mut self, right: bool) {
        self.right = self.right.saturating_add(u64::from(right));
        self.all = self.all.saturating_add(1);
    }

    // Writes a line for the cases of this name, if there are any.
    fn print<W: Write>(&self, out: &mut W, name: &str) -> io::Result<()> {
        let Score { right, all } = *self;
        if all == 0 {
            return Ok(());
        }
        writeln!(out, "{name} {right} of {all}")
    }
}

// The scores of the groups in their order, of the cases of no group, and of all cases.
#[derive(Clone, Copy)]
pub struct Tally {
    groups: [Score; GROUPS],
    unknown: Score,
    all: Score,
}

// A tally of no cases.
pub fn no_cases() -> Tally {
    Tally {
        groups: [NONE; GROUPS],
        unknown: NONE,
        all: NONE,
    }
}

// Where the group of this name stands, if there is one.
pub fn place_of(name: &[u8]) -> Option<usize> {
    let names = NAMES;
    names.iter().position(|(n, _)| n.as_bytes() == name)
}

// The group at a place.
pub fn group_at(place: usize) -> Option<Group> {
    let names = NAMES;
    names.get(place).map(|(_, group)| *group)
}

impl Tally {
    // Counts a case of the group at a place, or of no group.
    pub fn count(&mut self, place: Option<usize>, right: bool) {
        match place {
            Some(k) if k < GROUPS => self.groups[k].count(right),
            _ => self.unknown.count(right),
        }
        self.all.count(right);
    }

    // Writes a line for each group that has cases, and one for all.
    pub fn print<W: Write>(&self, out: &mut W) -> io::Result<()> {
        let names = NAMES;
        for ((name, _), score) in names.iter().zip(&self.groups) {
            score.print(out, *name)?;
        }
        self.unknown.print(out, "unknown")?;
        self.all.print(out, "all")
    }
}
