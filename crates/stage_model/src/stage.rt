//! Stages as data: by names of columns, as their texts have them, and by numbers of columns.
ghost use Rattle.std.specs.Prelude.{◌≡◌, List, ℕ};

use std::marker::Model;
use unit_pass::Name;

/// Names in a row. Contracts see the list of their bytes.
#[derive(Debug, Drop)]
pub struct Names {
    list: Vec<Name>,
}

impl Model for Names {
    ghost Value = { List (List ℕ) };

    ghost view = { λ n. n.list.items };
}

impl Names {
    /// These names. Takes no memory.
    pub fn from_vec(list: Vec<Name>) -> Names
        ensures { result ≡ list.items }
    {
        Names { list }
    }

    /// The names, given back. Takes no memory.
    pub fn into_vec(self) -> Vec<Name>
        ensures { result.items ≡ self }
    {
        self.list
    }

    /// The names, lent.
    pub fn as_slice(&self) -> &[Name]
        ensures { result.now ≡ self.now }
    {
        self.list.as_slice()
    }
}

/// Numbers of columns, from 0. Contracts see their list.
#[derive(Debug, Drop)]
pub struct Picks {
    list: Vec<usize>,
}

impl Model for Picks {
    ghost Value = { List ℕ };

    ghost view = { λ p. p.list.items };
}

impl Picks {
    /// These numbers. Takes no memory.
    pub fn from_vec(list: Vec<usize>) -> Picks
        ensures { result ≡ list.items }
    {
        Picks { list }
    }

    /// The numbers, given back. Takes no memory.
    pub fn into_vec(self) -> Vec<usize>
        ensures { result.items ≡ self }
    {
        self.list
    }

    /// The numbers, lent.
    pub fn as_slice(&self) -> &[usize]
        ensures { result.now ≡ self.now }
    {
        self.list.as_slice()
    }
}

/// What a filter asks of a value: how it compares with a constant, or whether it is null.
#[derive(Clone, Copy, Debug, PartialEq, Eq)]
pub enum Test {
    Eq,
    Ne,
    Lt,
    Le,
    Gt,
    Ge,
    Null,
    Valid,
}

/// The constant of a filter as a value of its column; none where the test takes none.
#[derive(Debug, Drop)]
pub enum Const {
    None,
    Truth(bool),
    Whole(i128),
    Bytes(Name),
}

/// A stage as its text names it, by names of columns.
#[derive(Debug, Drop)]
pub enum StageText {
    Select {
        names: Names,
    },
    Drop {
        names: Names,
    },
    Slice {
        off: u64,
        len: u64,
    },
    /// The constant is empty where the test takes none.
    Filter {
        name: Name,
        test: Test,
        constant: Name,
    },
    Pack {
        made: Name,
        names: Names,
    },
    Unpack {
        name: Name,
    },
    Dict {
        name: Name,
    },
    Plain {
        name: Name,
    },
    Totals {
        names: Names,
    },
}

/// A stage over columns, by their numbers from 0. A drop is a select of the columns that stay.
#[derive(Debug, Drop)]
pub enum Step {
    Select {
        picks: Picks,
    },
    Slice {
        off: u64,
        len: u64,
    },
    Filter {
        column: usize,
        test: Test,
        constant: Const,
    },
    /// The columns that stay, and then those of the struct.
    Pack {
        rest: Picks,
        picks: Picks,
    },
    Unpack {
        column: usize,
    },
    Dict {
        column: usize,
    },
    Plain {
        column: usize,
    },
    Totals {
        columns: Picks,
    },
}
