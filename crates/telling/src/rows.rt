// How the places of a vector are told.
use std::fmt;

// Places of a vector. They are told each behind a blank, and of more than nineteen only the last.
#[derive(Clone, Copy)]
pub struct Row<'a> {
    pub places: &'a [u16],
}

impl fmt::Display for Row<'_> {
    fn fmt<W: fmt::Write>(&self, f: &mut fmt::Formatter<W>) -> fmt::Result {
        let from = if self.places.len() < 20 {
            0
        } else {
            self.places.len() - 1
        };
        for n in &self.places[from..] {
            write!(f, " {n}")?;
        }
        Ok(())
    }
}
