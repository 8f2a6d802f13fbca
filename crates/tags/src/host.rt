// The tag layer as a C host calls it.
ghost use Rattle.std.specs.Prelude.{◌≡◌, cond, length};
ghost use Rattle.samples.specs.Points.{lit_points_in, drawn_over, room_for};
ghost use Rattle.tags.specs.Dictionary.{host_check};
ghost use Rattle.tags.specs.Layout.{sample_of, mapping_of, host_checked, dimmer_mapped};
ghost use Rattle.tags.specs.CheckedView.{checked_of};
ghost use Rattle.tags.specs.Levels.{host_levels, host_written};

use super::limits::{PLACE_COUNT, TAG_OCTET_LIMIT};
use super::refusal::Refusal;
use super::{Checked, Dimmer, Layout, Mapped, dictionary, dimming, rows};

// What a C host's tags say, or the refusal: 6 for modes but 1 and 2, then 5 for odd lengths or above 1,020, then 8 to 12.
#[tactic(auto, using(crate::proofs::HostLaws::host_steps), unfolding(crate::specs::Dictionary::host_number, crate::specs::Dictionary::host_sample, crate::specs::Layout::padded))]
fn layout(mode: u32, tags: &[u8]) -> Result<Layout, Refusal>
    ensures { checked_of result ≡ host_checked mode tags.now }
{
    let mode = match mode {
        1 | 2 => mode as u8,
        _ => return Err(Refusal::Mode),
    };
    if tags.len() % 2 != 0 || tags.len() > TAG_OCTET_LIMIT {
        return Err(Refusal::OctetCount);
    }
    dictionary::read(mode, tags)
}

// The dictionary check with the layout that it leaves: the refusal, or 0 with the layout. The arrays hold 0 after `width` and `colours`, and
// all of the layout is 0 with a refusal.
#[unsafe(no_mangle)]
pub extern "C" fn mewkoast_layout(mode: u32, tags: &[u8]) -> Checked
    ensures { result ≡ host_checked mode tags.now }
{
    Checked::from(layout(mode, tags))
}

// The dictionary check: the width of a sample, or 100 plus the refusal.
#[unsafe(no_mangle)]
pub extern "C" fn mewkoast_dictionary(mode: u32, tags: &[u8]) -> u32
    ensures { result ≡ host_check mode tags.now }
{
    match layout(mode, tags) {
        Ok(layout) => u32::from(layout.width),
        Err(refusal) => 100 + u32::from(refusal.number()),
    }
}

// Samples to rows by a layout: the number of lit points, and the rows from the start of the lent slice; nothing where it has no room.
#[unsafe(no_mangle)]
pub extern "C" fn mewkoast_draw(layout: Layout, octets: &[u8], rows: &mut [i32]) -> usize
    ensures rows_after { rows.new ≡ cond (room_for (sample_of layout).roles octets.now rows.old) (drawn_over (sample_of layout).roles (sample_of layout).waves octets.now rows.old) rows.old }
    ensures value { result ≡ cond (room_for (sample_of layout).roles octets.now rows.old) (lit_points_in (sample_of layout).roles octets.now) 0 }
{
    rows::draw(layout, 0, octets, rows)
}

// The check of dimmer tags with the mapping that it leaves. The arrays hold 0 after `count`, and all of the mapping is 0 with a refusal.
#[unsafe(no_mangle)]
pub extern "C" fn mewkoast_mapping(tags: &[u8]) -> Mapped
    ensures { result ≡ dimmer_mapped tags.now }
{
    dimming::check(tags)
}

// Levels to places by a mapping: the count written; nothing, and 0, where check 21 does not pass, fewer than 1,024 places are lent, or the
// base or a subset of the mapping is out of range. Only the ranges are asked: subsets that overlap are written in turn, and a base beside
// subsets is not used.
#[tactic(auto, unfolding(crate::specs::Levels::host_levels, crate::specs::Levels::host_written))]
#[unsafe(no_mangle)]
pub extern "C" fn mewkoast_levels(
    dimmer: Dimmer,
    mode: u8,
    octets: &[u8],
    levels: &mut [u8],
) -> usize
    ensures levels_after { levels.new ≡ host_levels mode (mapping_of dimmer) octets.now levels.old }
    ensures value { result ≡ host_written (mapping_of dimmer) (length octets.now) (length levels.old) }
{
    if levels.len() < PLACE_COUNT || !dimmer.is_in_range() {
        return 0;
    }
    dimmer.write(mode, octets, levels)
}
