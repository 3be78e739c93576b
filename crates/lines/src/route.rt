// The line of a sled: its number, and its place at every instant as column,row.
ghost use Rattle.std.specs.Prelude.{◌+◌, ◌*◌, ◌≤◌, length};
ghost use Rattle.text.specs.Texts.{Appends};
ghost use Rattle.lines.specs.Plans.{place_text, places_text, route_line};

use grid::place::Place;
use text::Text;

// Appends the line of a sled whose route has these places, by their numbers, at the instants from 0 on.
pub(crate) fn put_route(text: &mut Text, sled: usize, route: &[u8])
    ensures text { Appends text.old (route_line sled route.now) text.new }
    ensures short { length (route_line sled route.now) ≤ 6 * length route.now + 22 }
{
    text.put_number(sled);
    text.put(b" ");
    put_places(text, route);
    text.put(b"\n");
}

// The places, parted by single blanks.
fn put_places(text: &mut Text, route: &[u8])
    ensures text { Appends text.old (places_text route.now) text.new }
    ensures short { length (places_text route.now) ≤ 6 * length route.now }
{
    for (instant, number) in route.iter().enumerate() {
        if instant > 0 {
            text.put(b" ");
        }
        put_place(text, *number);
    }
}

// The column, a comma and the row. By hand, as `Display` needs a formatter, and this goes into the caller's memory.
fn put_place(text: &mut Text, number: u8)
    ensures text { Appends text.old (place_text number) text.new }
    ensures short { length (place_text number) ≤ 5 }
{
    let place = Place::from(number);
    text.put_number(usize::from(place.column));
    text.put(b",");
    text.put_number(usize::from(place.row));
}
