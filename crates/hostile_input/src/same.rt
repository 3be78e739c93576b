// Whether two job records tell the same of everything that a job can be asked.
use grid::floor::Floor;
use job::job::Job;
use job::shape::Shape;
use job::sled::Sled;

pub fn is_same(a: &Job, b: &Job) -> bool {
    a.horizon() == b.horizon()
        && a.limit() == b.limit()
        && is_same_floor(&a.floor(), &b.floor())
        && a.sled_count() == b.sled_count()
        && a.sleds()
            .iter()
            .zip(b.sleds())
            .all(|(a, b)| is_same_sled(a, b))
}

fn is_same_floor(a: &Floor, b: &Floor) -> bool {
    a.columns() == b.columns() && a.rows() == b.rows() && a.cells() == b.cells()
}

fn is_same_sled(a: &Sled, b: &Sled) -> bool {
    is_same_shape(a.shape, b.shape) && a.skirt == b.skirt && a.start == b.start && a.goal == b.goal
}

fn is_same_shape(a: Shape, b: Shape) -> bool {
    match (a, b) {
        (
            Shape::Rectangle { width, height },
            Shape::Rectangle {
                width: other_width,
                height: other_height,
            },
        ) => width == other_width && height == other_height,
        (Shape::Drawing { rows }, Shape::Drawing { rows: other_rows }) => rows == other_rows,
        _ => false,
    }
}
