// Samples to rows: each point of a chunk as a row of numbers (document 01, "One row").
#![tactic(auto)]

pub mod fixed_list;
pub mod limits;
mod places;
mod plan;
mod points;
mod signals;

ghost use Rattle.std.specs.Prelude.{◌≡◌, cond, take};
ghost use Rattle.samples.specs.Points.{behind, lit_points_in, drawn_over, room_for};

use limits::{COLOUR_LIMIT, OCTET_LIMIT, ROW};

// Arrays with a width and a number of colours beside them, here and in `lit_points`, as C has them in a layout; slices inside, whose
// limits each function asks for: a struct of both would not serve those that take roles alone.
//
// The points of `octets` as rows from the start of `rows`, and how many of those behind the first `start` samples are lit. The first
// `width` of the roles say what each octet of a sample is for, and the first `colours` of the waves which wavelengths are fixed. Where
// the rows have no room for every point, nothing is written and the count is 0.
pub fn draw(
    roles: [u8; OCTET_LIMIT],
    width: usize,
    waves: [u16; COLOUR_LIMIT],
    colours: usize,
    start: usize,
    octets: &[u8],
    rows: &mut [i32],
) -> usize
    ensures rows { rows.new
        ≡ cond (room_for (take width roles) octets.now rows.old)
        (drawn_over (take width roles) (take colours waves) octets.now rows.old)
        rows.old }
    ensures lit { result
        ≡ cond (room_for (take width roles) octets.now rows.old)
        (lit_points_in (take width roles) (behind (take width roles) start octets.now))
        0 }
{
    let roles = &roles[..width.min(OCTET_LIMIT)];
    let waves = &waves[..colours.min(COLOUR_LIMIT)];
    if rows.len() / ROW < points::samples_in(roles.len(), octets) {
        return 0;
    }
    points::draw_all(roles, waves, start, octets, rows)
}

// How many of the points of `octets` behind the first `start` samples are lit; no rows are lent for them.
pub fn lit_points(roles: [u8; OCTET_LIMIT], width: usize, start: usize, octets: &[u8]) -> usize
    ensures { result ≡ lit_points_in (take width roles) (behind (take width roles) start octets.now) }
{
    points::count_lit(&roles[..width.min(OCTET_LIMIT)], start, octets)
}
