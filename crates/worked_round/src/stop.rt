// Why the worked figures end early.
use std::{fmt, io};

// What the rules refuse to give.
#[derive(Clone, Copy, PartialEq, Eq, Debug)]
pub enum Missing {
    Name,
    Minimums,
    Division,
    SecondMinimums,
    Margin,
    Reference,
    Fractions,
    Fraction,
    Total,
    Parts,
}

impl fmt::Display for Missing {
    fn fmt<W: fmt::Write>(&self, f: &mut fmt::Formatter<W>) -> fmt::Result {
        f.write_str(match self {
            Missing::Name => "name",
            Missing::Minimums => "minimums",
            Missing::Division => "division",
            Missing::SecondMinimums => "second minimums",
            Missing::Margin => "margin",
            Missing::Reference => "reference",
            Missing::Fractions => "fractions",
            Missing::Fraction => "fraction",
            Missing::Total => "total",
            Missing::Parts => "parts",
        })
    }
}

// Something is missing, or a line was not printed.
#[derive(Drop)]
pub enum Stop {
    Missing(Missing),
    Print(io::Error),
}

impl From<Missing> for Stop {
    fn from(missing: Missing) -> Stop {
        Stop::Missing(missing)
    }
}

impl From<io::Error> for Stop {
    fn from(error: io::Error) -> Stop {
        Stop::Print(error)
    }
}
