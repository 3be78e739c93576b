// The shapes of a job's sleds, collected kind by kind.
ghost use Rattle.std.specs.Prelude.{◌≡◌, ◌<◌, true, ◌++◌, length};
ghost use Rattle.fleet.specs.RectangleFleets.{all_sides};
ghost use Rattle.fleet.specs.OutlineFleets.{all_rows};
ghost use Rattle.job.specs.Facts.{facts};
ghost use Rattle.job.specs.Shapes.{shape_ok};
ghost use Rattle.standard.specs.Collected.{sides_of, rows_of, all_sides_of, all_rows_of};

use fleet::convoy::Convoy;
use fleet::outlines::Outlines;
use fleet::rectangles::Rectangles;
use job::job::Job;
use job::shape::Shape;

// The rectangles among the sleds, in their order, and then the drawings, in theirs.
pub(crate) fn shapes_of(job: &Job) -> Convoy<Rectangles, Outlines>
    ensures rectangles { all_sides result.first ≡ all_sides_of (facts job.now).sleds }
    ensures outlines { all_rows result.second ≡ all_rows_of (facts job.now).sleds }
{
    let mut rectangles = Rectangles::new();
    let mut outlines = Outlines::new();
    for sled in job.sleds() {
        add(&mut rectangles, &mut outlines, sled.shape);
    }
    Convoy::new(rectangles, outlines)
}

// One rectangle or one drawing more.
fn add(rectangles: &mut Rectangles, outlines: &mut Outlines, shape: Shape)
    requires sound { shape_ok shape ≡ true }
    requires few_rectangles { length (all_sides rectangles.old) < 6 }
    requires few_outlines { length (all_rows outlines.old) < 6 }
    ensures sides { all_sides rectangles.new ≡ all_sides rectangles.old ++ sides_of shape }
    ensures rows { all_rows outlines.new ≡ all_rows outlines.old ++ rows_of shape }
{
    let added = match shape {
        Shape::Rectangle { width, height } => rectangles.add(width, height),
        Shape::Drawing { rows } => outlines.add(rows),
    };
    let Ok(()) = added else { unreachable() };
}
