// How routes, shapes and rows of a floor are printed.
use grid::cell::Cell;
use grid::place::Place;
use job::shape::Shape;
use std::fmt;

// A blank and a place for every instant.
#[derive(Clone, Copy)]
pub struct Route<'a>(pub &'a [u8]);

impl fmt::Display for Route<'_> {
    fn fmt<W: fmt::Write>(&self, f: &mut fmt::Formatter<W>) -> fmt::Result {
        for number in self.0 {
            write!(f, " {}", Place::from(*number))?;
        }
        Ok(())
    }
}

// The kind of a shape, and its sides or its rows.
#[derive(Clone, Copy)]
pub struct Shown(pub Shape);

impl fmt::Display for Shown {
    fn fmt<W: fmt::Write>(&self, f: &mut fmt::Formatter<W>) -> fmt::Result {
        match self.0 {
            Shape::Rectangle { width, height } => write!(f, "rectangle {width} by {height}"),
            Shape::Drawing { rows } => write!(f, "drawing {}", Drawn(rows)),
        }
    }
}

// The eight rows of a drawing in hexadecimal, with a slash between them.
#[derive(Clone, Copy)]
pub struct Drawn(pub [u8; 8]);

impl fmt::Display for Drawn {
    fn fmt<W: fmt::Write>(&self, f: &mut fmt::Formatter<W>) -> fmt::Result {
        for (i, row) in self.0.iter().enumerate() {
            if i > 0 {
                f.write_str("/")?;
            }
            write!(f, "{row:02x}")?;
        }
        Ok(())
    }
}

// The cells of one row of a floor.
#[derive(Clone, Copy)]
pub struct Row<'a>(pub &'a [Cell]);

impl fmt::Display for Row<'_> {
    fn fmt<W: fmt::Write>(&self, f: &mut fmt::Formatter<W>) -> fmt::Result {
        for cell in self.0 {
            write!(f, "{cell}")?;
        }
        Ok(())
    }
}
