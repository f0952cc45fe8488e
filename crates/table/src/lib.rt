// What a row of a chart says: its tag (of a group, that of its first segment), its parent, the first row past those inside it, its status, and how often it may come.
#![tactic(auto)]

ghost use Rattle.std.specs.Prelude.{◌≡◌};
ghost use Rattle.table.specs.Entries.{tag_in, most_in, required as must};

// The letters of the guides' column of a segment's or group's status: M, R, D, O and N.
#[derive(Clone, Copy, Debug, PartialEq, Eq)]
pub enum Status {
    Optional,
    Mandatory,
    Required,
    Dependent,
    NotUsed,
}

// Rows name one another by number, as the definitions of a table do.
#[derive(Clone, Copy, Debug, PartialEq, Eq)]
pub struct Row {
    pub tag: [u8; 3],
    pub parent: u8,
    pub end: u8,
    pub status: Status,
    pub most: u16,
}

impl Row {
    // Its tag as a code.
    pub fn code(self) -> u64
        ensures { result ≡ tag_in self }
    {
        let [a, b, c] = self.tag;
        ((256 + u64::from(a)) * 256 + u64::from(b)) * 256 + u64::from(c)
    }

    // How often it may come: never, or its repeats.
    pub fn most(self) -> usize
        ensures { result ≡ most_in self }
    {
        match self.status {
            Status::NotUsed => 0,
            Status::Mandatory | Status::Required | Status::Dependent | Status::Optional =>
                usize::from(self.most),
        }
    }

    // Whether it must come: M and R are required.
    pub fn is_required(self) -> bool
        ensures { result ≡ must self.status }
    {
        match self.status {
            Status::Mandatory | Status::Required => true,
            Status::Dependent | Status::Optional | Status::NotUsed => false,
        }
    }
}

// The parent of the message's own row. 255 and no Option: the definitions `outside` and `next_of` go on from it, past each table.
pub const OUTSIDE: u8 = 255;

// Rows, each by its tag, its parent, the first row past those inside it, the letter of its status, and how often it may come.
#[macro_export]
macro_rules! rows {
    ($([$tag:literal, $parent:expr, $end:literal, $status:ident, $most:literal],)*) => {
        [$($crate::Row {
            tag: *$tag,
            parent: $parent,
            end: $end,
            status: $crate::status!($status),
            most: $most,
        }),*]
    };
}

// A status by its letter.
#[macro_export]
macro_rules! status {
    (M) => { $crate::Status::Mandatory };
    (R) => { $crate::Status::Required };
    (D) => { $crate::Status::Dependent };
    (O) => { $crate::Status::Optional };
    (N) => { $crate::Status::NotUsed };
}
