// A small job in this program's own words.

// A place by its column and its row, from 0 at the top left.
#[derive(Clone, Copy, PartialEq, Eq, Hash)]
pub struct Spot {
    pub column: i8,
    pub row: i8,
}

#[derive(Clone, Copy)]
pub enum Shape {
    Rectangle { width: u8, height: u8 },
    // the highest bit of a row is its first cell
    Drawing { rows: [u8; 8] },
}

// A shape, and how far around it cells are kept free.
#[derive(Clone, Copy)]
pub struct Form {
    pub shape: Shape,
    pub skirt: u8,
}

#[derive(Clone, Copy)]
pub struct Sled {
    pub form: Form,
    pub start: Spot,
    pub goal: Spot,
}

#[derive(Drop)]
pub struct Floor {
    pub columns: u8,
    pub rows: u8,
    pub pillars: Vec<Spot>,
}

// Rectangles stand before drawings, as in a job file.
#[derive(Drop)]
pub struct Case {
    pub horizon: u8,
    pub limit: u8,
    pub floor: Floor,
    pub sleds: Vec<Sled>,
}
