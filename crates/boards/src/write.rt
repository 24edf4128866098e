// A board's MAX and topology, as a line begins with them.
use std::fmt;
use std::fmt::{Display, Formatter, Write};

#[derive(Clone, Copy)]
pub(super) struct Board<'a> {
    pub max: u8,
    pub topology: &'a [u8],
}

impl Display for Board<'_> {
    fn fmt<W: Write>(&self, f: &mut Formatter<W>) -> fmt::Result {
        write!(f, "at MAX {}", self.max)?;
        let Some((first, rest)) = self.topology.split_first() else {
            return write!(f, " an empty topology");
        };
        write!(f, " topology {first}")?;
        for entry in rest {
            write!(f, ",{entry}")?;
        }
        Ok(())
    }
}
