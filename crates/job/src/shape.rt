// The shape of a sled: a rectangle, or a drawing of eight rows.
ghost use Rattle.std.specs.Prelude.{◌≡◌};
ghost use Rattle.job.specs.Sound.{drawn_shape};
ghost use Rattle.job.specs.Told.{field_size};
ghost use Rattle.job.specs.Shapes.{covers, past_the_edge, outgrown, row_outgrown, some_row, shape_ok};

#[derive(Clone, Copy)]
pub enum Shape {
    // sides from 1 to 8
    Rectangle { width: u8, height: u8 },
    // eight rows of eight cells, where the highest bit of a row is its first cell
    Drawing { rows: [u8; 8] },
}

impl Shape {
    // Whether the shape has an offset. The shapes of a fleet answer so too, once they are sound; a job knows no fleet, and asks before that.
    fn has(self, dx: u8, dy: u8) -> bool
        ensures { result ≡ covers self dx dy }
    {
        match self {
            Shape::Rectangle { width, height } => dx < width && dy < height,
            Shape::Drawing { rows } => dx < 8
                && dy < 8
                && (rows[dy as usize] >> (7 - dx as u32)) % 2 == 1,
        }
    }

    pub(crate) fn is_drawn(self) -> bool
        ensures { result ≡ drawn_shape self }
    {
        matches!(self, Shape::Drawing { .. })
    }

    // The length of its whole field in a job file.
    pub(crate) fn field_size(self) -> usize
        ensures { result ≡ field_size self }
    {
        match self {
            Shape::Rectangle { .. } => 10,
            Shape::Drawing { .. } => 16,
        }
    }

    // Whether the shape is within its limits: sides from 1 to 8, or some cell drawn.
    pub(crate) fn is_sound(self) -> bool
        ensures { result ≡ shape_ok self }
    {
        match self {
            Shape::Rectangle {
                width: 1..=8,
                height: 1..=8,
            } => true,
            Shape::Rectangle { .. } => false,
            Shape::Drawing { rows } => has_cell(&rows),
        }
    }

    // Whether a skirt would take an offset beyond 7.
    pub(crate) fn outgrows(self, skirt: u8) -> bool
        ensures { result ≡ outgrown self skirt }
    {
        (0..8u8).any(|dy| self.row_outgrows(skirt, dy))
    }

    fn row_outgrows(self, skirt: u8, dy: u8) -> bool
        ensures { result ≡ row_outgrown self skirt dy }
    {
        (0..8u8).any(|dx| self.has(dx, dy) && is_past(skirt, dx, dy))
    }
}

// Whether the skirt takes this offset beyond 7, across or down.
fn is_past(skirt: u8, dx: u8, dy: u8) -> bool
    ensures { result ≡ past_the_edge skirt dx dy }
{
    7 < dx as u16 + skirt as u16 || 7 < dy as u16 + skirt as u16
}

// Whether some row has a cell.
fn has_cell(rows: &[u8; 8]) -> bool
    ensures { result ≡ some_row rows.now }
{
    rows.iter().any(|row| *row != 0)
}
