// The points of a chunk, one row after the other.
ghost use Rattle.std.specs.Prelude.{◌≡◌, ◌++◌, ◌*◌, ◌≤◌, drop, length};
ghost use Rattle.samples.specs.Limits.{colour_limit, octet_limit, row_size};
ghost use Rattle.samples.specs.Points.{behind, lit_points_in, rows_of, samples_in, samples_of};
ghost use Rattle.samples.specs.Plan.{Ready};

use super::limits::ROW;
use super::plan::Plan;

// How many whole samples of `width` octets the octets are, none of width 0. crates/tags has the like for a type: one public function for
// both would be longer than the line.
pub fn samples_in(width: usize, octets: &[u8]) -> usize
    ensures { result ≡ samples_of width (length octets.now) }
{
    octets.len().checked_div(width).unwrap_or(0)
}

// The rows of the samples by their plan. Out of line, and the template by value: so the template stays in registers and the plan where it
// is, while in line the compiler copies each place of the plan, which takes 500 octets of stack more. Parts by an index: with
// `chunks_exact` a point takes 10 to 12 instructions more, and a sparse one may take 3.
#[inline(never)]
fn draw_rows(plan: &Plan, width: usize, start: usize, octets: &[u8], rows: &mut [i32]) -> usize
    requires { Ready plan.now width × (samples_of width (length octets.now) * row_size ≤ length rows.old) }
    ensures rows { (d : Ready plan.now width) → rows.new ≡ rows_of d.roles d.waves octets.now (samples_of width (length octets.now)) ++ drop (samples_of width (length octets.now) * row_size) rows.old }
    ensures lit { (d : Ready plan.now width) → result ≡ lit_points_in d.roles (behind d.roles start octets.now) }
{
    let template = plan.template;
    let mut lit = 0;
    for i in 0..samples_in(width, octets) {
        let sample = &octets[i * width..(i + 1) * width];
        let shown = plan.draw(&template, sample, &mut rows[i * ROW..(i + 1) * ROW]);
        lit += usize::from(shown & (start <= i));
    }
    lit
}

// The rows of the samples, and how many of the points behind the first `start` samples are lit.
pub fn draw_all(roles: &[u8], waves: &[u16], start: usize, octets: &[u8], rows: &mut [i32]) -> usize
    requires { (length roles.now ≤ octet_limit) × (length waves.now ≤ colour_limit) × (samples_in roles.now octets.now * row_size ≤ length rows.old) }
    ensures rows { rows.new ≡ rows_of roles.now waves.now octets.now (samples_in roles.now octets.now) ++ drop (samples_in roles.now octets.now * row_size) rows.old }
    ensures lit { result ≡ lit_points_in roles.now (behind roles.now start octets.now) }
{
    draw_rows(&Plan::new(roles, waves), roles.len(), start, octets, rows)
}

// How many points behind the first `start` samples are lit: each is drawn by itself, over the same row. `draw_rows` has the only call of
// `Plan::draw`: with a second one the compiler no longer puts it in line, and drawing takes twice as long. By an
// index from the first sample that counts: `chunks_exact` asks for a width above 0, and there may be none.
pub fn count_lit(roles: &[u8], start: usize, octets: &[u8]) -> usize
    requires { length roles.now ≤ octet_limit }
    ensures { result ≡ lit_points_in roles.now (behind roles.now start octets.now) }
{
    let width = roles.len();
    let mut row = [0; ROW];
    let mut lit = 0;
    for i in start..samples_in(width, octets) {
        lit += draw_all(roles, &[], 0, &octets[i * width..(i + 1) * width], &mut row);
    }
    lit
}
