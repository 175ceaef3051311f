// Why a listing is refused, and where.
ghost use Rattle.std.specs.Prelude.{◌≡◌, ◌≤◌};
ghost use Rattle.terms.specs.Refusals.{number_of};

use std::fmt;

// What is at fault, by its number.
#[derive(Clone, Copy, Debug, PartialEq, Eq)]
pub enum Fault {
    // "line not of this form"
    BadLine = 40,
    // "heading given twice"
    HeadingTwice = 41,
    // "a BT or NT whose mirror line is missing"
    NoMirror = 42,
    // a size of document 01, or of the room lent
    Size = 43,
    // "the lent row of levels is shorter than the headings"
    ShortRow = 44,
}

// A refusal: what is at fault, and the line concerned; 0 where it is none.
#[derive(Clone, Copy, Debug, PartialEq, Eq)]
pub struct Refusal {
    pub fault: Fault,
    pub line: usize,
}

impl Fault {
    // Its refusal at a line.
    pub fn at(self, line: usize) -> Refusal
        ensures { result ≡ record { fault = self; line = line } }
    {
        Refusal { fault: self, line }
    }
}

impl Refusal {
    pub fn number(self) -> u8
        ensures { result ≡ number_of self.fault }
    {
        self.fault as u8
    }
}

// As the programs print it: its number and the line concerned.
impl fmt::Display for Refusal {
    fn fmt<W: fmt::Write>(&self, f: &mut fmt::Formatter<W>) -> fmt::Result {
        write!(f, "{} {}", self.number(), self.line)
    }
}
