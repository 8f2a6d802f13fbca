// What a chunk adds to the meters (check 23), and the drawing of points and writing of levels, behind the checks on them.
ghost use Rattle.std.specs.Prelude.{◌≡◌, true, false, cond, ◌+◌, List, ℕ, ◌≤◌, ◌<◌, ◌^◌, length, eqb, ℤ};
ghost use Rattle.tags.specs.Rows.{lit_points_by, behind_by};
ghost use Rattle.tags.specs.Choice.{refuse};
ghost use Rattle.tags.specs.Layout.{sample_of};
ghost use Rattle.receiver.specs.Slices.{slices};
ghost use Rattle.receiver.specs.Chunk.{is_drawing, is_dimming};
ghost use Rattle.receiver.specs.Meters.{Sums, sums, over_limit};
ghost use Rattle.receiver.specs.Checks.{most_octets};
ghost use Rattle.receiver.specs.Contract.{sums_in};
ghost use Rattle.receiver.specs.Steps.{Concluded};
ghost use Rattle.receiver.specs.Refusal.{number_in};
ghost use Rattle.receiver.specs.Kinds.{type_number};
ghost use Rattle.receiver.specs.Views.{chunk_as, meaning, done_of};

use super::Readings;
use super::chunk::{Chunk, check_levels, count_points};
use super::governing::Governing;
use super::refusal::Refusal;
use tags::Layout;
use tags::kept::{dimmer_in, layout_in};

// What an accepted chunk wrote: the lit time, points and lit points that it adds to the meters, and the levels.
#[derive(Clone, Copy, Debug, PartialEq, Eq)]
pub struct Counts {
    pub lit_time: u64,
    pub points: u32,
    pub lit_points: u32,
    pub levels: u32,
}

impl Counts {
    // Those of a chunk that writes nothing.
    pub(crate) const NONE: Counts = Counts {
        lit_time: 0,
        points: 0,
        lit_points: 0,
        levels: 0,
    };
}

// The Duration that counts: none where no point is lit.
fn counted_time(lit: bool, time: u64) -> u64
    ensures { result ≡ cond lit time 0 }
{
    if lit { time } else { 0 }
}

// Check 23, for points that take so long where one is lit: those of a body without its first samples. The lit points are counted only where a
// meter is so near its limit that they decide. Layout, start and body come one by one, as the calls of the tag layer take them.
fn check_meters(
    meters: Readings,
    time: u64,
    points: u64,
    layout: &Layout,
    start: usize,
    body: &[u8],
) -> Result<(), Refusal>
    requires lit { lit_points_by (sample_of layout.now) (behind_by (sample_of layout.now) start body.now) ≤ points }
    requires few { (points ≤ most_octets) × (time < 2 ^ 24) }
    requires within { over_limit (sums_in meters) ≡ false }
    ensures { (l : ℕ) → l ≡ lit_points_by (sample_of layout.now) (behind_by (sample_of layout.now) start body.now)
        → number_in result ≡ refuse (over_limit (sums (meters.lit_time + cond (eqb l 0) 0 time) (meters.points + points) (meters.lit_points + l))) 23 }
{
    let most = Readings {
        lit_time: meters.lit_time + time,
        points: meters.points + points,
        lit_points: meters.lit_points + points,
    };
    if !most.is_over_limit() {
        return Ok(());
    }
    let shown = tags::rows::lit(*layout, start, body) as u64;
    let risen = Readings {
        lit_time: meters.lit_time + counted_time(shown != 0, time),
        points: meters.points + points,
        lit_points: meters.lit_points + shown,
    };
    risen.within_limit()?;
    Ok(())
}

// A wave or frame drawn, where checks 20, 22 and 23 pass it.
pub(crate) fn draw_points(
    governing: &Governing,
    chunk: &Chunk,
    meters: Readings,
    rows: &mut [i32],
) -> Result<Counts, Refusal>
    requires drawing { is_drawing (type_number chunk.now.chunk_type) (meaning governing.now) ≡ true }
    requires few { length chunk.now.section.now ≤ most_octets }
    requires within { over_limit (sums_in meters) ≡ false }
    ensures { (levels a : List ℕ) → Concluded 0 (chunk_as chunk.now) (meaning governing.now) (sums_in meters) (slices rows.old levels a) (done_of result) (slices rows.new levels a) }
{
    let octets = chunk.body();
    let points = count_points(chunk.chunk_type, governing.size, octets.len(), rows.len())?;
    let layout = layout_in(governing.size, governing.colours, &governing.area);
    let start = chunk.unlit_samples();
    let time = chunk.duration();
    check_meters(meters, time, points as u64, &layout, start, octets)?;
    let lit = tags::rows::draw(layout, start, octets, rows);
    let lit_time = counted_time(lit != 0, time);
    Ok(Counts {
        lit_time,
        points: points as u32,
        lit_points: lit as u32,
        levels: 0,
    })
}

// Levels written, where checks 21 and 22 pass them. It stays a call, so that points are drawn without what it takes of the stack.
#[inline(never)]
pub(crate) fn write_levels(
    governing: &Governing,
    chunk: &Chunk,
    levels: &mut [u8],
) -> Result<Counts, Refusal>
    requires few { length chunk.now.section.now ≤ most_octets }
    ensures { (rows : List ℤ) (a : List ℕ) (meters : Sums) → is_dimming (type_number chunk.now.chunk_type) (meaning governing.now) ≡ true → over_limit meters ≡ false
        → Concluded 0 (chunk_as chunk.now) (meaning governing.now) meters (slices rows levels.old a) (done_of result) (slices rows levels.new a) }
{
    let octets = chunk.body();
    let dimmer = dimmer_in(governing.size, &governing.area);
    check_levels(dimmer, octets.len(), levels.len())?;
    let written = dimmer.write(governing.mode_number(), octets, levels);
    Ok(Counts {
        levels: written as u32,
        ..Counts::NONE
    })
}
