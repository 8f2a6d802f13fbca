// Samples to rows, by the layout that a dictionary gave (document 01, "One row"). The decoding itself is the crate `samples`; here a
// layout is read by what it means. What needs the octets of a sample alone takes them as a layer above keeps them (specs/Kept.antt).
ghost use Rattle.std.specs.Prelude.{◌≡◌, cond, ◌%◌, ◌≤◌, eqb, length};
ghost use Rattle.samples.specs.Points.{samples_of, points_for, behind, lit_points_in, drawn_over, room_for};
ghost use Rattle.tags.specs.Layout.{sample_of};
ghost use Rattle.tags.specs.Kept.{octets_of};

use crate::Layout;
use crate::limits::OCTET_LIMIT;

// The octets of a sample, of which there are at most OCTET_LIMIT.
fn octets_of(size: u8) -> usize
    ensures { result ≡ octets_of size }
{
    usize::from(size).min(OCTET_LIMIT)
}

// How many whole samples that many octets hold. `samples_in`, inside the crate samples, is its like on a slice: shared, it would be one more
// public function for one line.
pub fn samples(size: u8, octets: usize) -> usize
    ensures { result ≡ samples_of (octets_of size) octets }
{
    octets.checked_div(octets_of(size)).unwrap_or(0)
}

// How many points so many samples are: each sample is one.
pub fn points(samples: usize) -> usize
    ensures { result ≡ points_for samples }
{
    samples
}

// Whether that many octets are whole samples.
pub fn whole(size: u8, octets: usize) -> bool
    ensures { result ≡ eqb (octets % octets_of size) 0 }
{
    octets.is_multiple_of(octets_of(size))
}

// How many of the points behind the first `start` samples are lit.
pub fn lit(layout: Layout, start: usize, octets: &[u8]) -> usize
    ensures { result ≡ lit_points_in (sample_of layout).roles (behind (sample_of layout).roles start octets.now) }
{
    samples::lit_points(layout.roles, usize::from(layout.width), start, octets)
}

// The samples written as rows where the lent rows have room, and how many of the points behind the first `start` samples are lit; else
// nothing, and 0.
#[tactic(auto, using(crate::proofs::RowBounds::lit_within))]
pub fn draw(layout: Layout, start: usize, octets: &[u8], rows: &mut [i32]) -> usize
    ensures rows_after { rows.new ≡ cond (room_for (sample_of layout).roles octets.now rows.old) (drawn_over (sample_of layout).roles (sample_of layout).waves octets.now rows.old) rows.old }
    ensures value { result ≡ cond (room_for (sample_of layout).roles octets.now rows.old) (lit_points_in (sample_of layout).roles (behind (sample_of layout).roles start octets.now)) 0 }
    ensures bound { result ≤ length octets.now }
{
    samples::draw(
        layout.roles,
        usize::from(layout.width),
        layout.waves,
        usize::from(layout.colours),
        start,
        octets,
        rows,
    )
}
