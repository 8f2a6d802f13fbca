// The archive of the tag layer for C hosts. Each call is that of the same name in crates/tags/src/host.rt, with its whole promise.
// Written again: an archive for C is a crate above its library, and exports its own functions alone.
#![tactic(auto)]

ghost use Rattle.std.specs.Prelude.{◌≡◌, cond, length};
ghost use Rattle.samples.specs.Points.{lit_points_in, drawn_over, room_for};
ghost use Rattle.tags.specs.Dictionary.{host_check};
ghost use Rattle.tags.specs.Layout.{sample_of, mapping_of, host_checked, dimmer_mapped};
ghost use Rattle.tags.specs.Levels.{host_levels, host_written};

use tags::{Checked, Dimmer, Layout, Mapped, host};

#[unsafe(no_mangle)]
pub extern "C" fn mewkoast_layout(mode: u32, tags: &[u8]) -> Checked
    ensures { result ≡ host_checked mode tags.now }
{
    host::mewkoast_layout(mode, tags)
}

#[unsafe(no_mangle)]
pub extern "C" fn mewkoast_dictionary(mode: u32, tags: &[u8]) -> u32
    ensures { result ≡ host_check mode tags.now }
{
    host::mewkoast_dictionary(mode, tags)
}

#[unsafe(no_mangle)]
pub extern "C" fn mewkoast_draw(layout: Layout, octets: &[u8], rows: &mut [i32]) -> usize
    ensures rows_after { rows.new ≡ cond (room_for (sample_of layout).roles octets.now rows.old) (drawn_over (sample_of layout).roles (sample_of layout).waves octets.now rows.old) rows.old }
    ensures value { result ≡ cond (room_for (sample_of layout).roles octets.now rows.old) (lit_points_in (sample_of layout).roles octets.now) 0 }
{
    host::mewkoast_draw(layout, octets, rows)
}

#[unsafe(no_mangle)]
pub extern "C" fn mewkoast_mapping(tags: &[u8]) -> Mapped
    ensures { result ≡ dimmer_mapped tags.now }
{
    host::mewkoast_mapping(tags)
}

#[unsafe(no_mangle)]
pub extern "C" fn mewkoast_levels(
    dimmer: Dimmer,
    mode: u8,
    octets: &[u8],
    levels: &mut [u8],
) -> usize
    ensures levels_after { levels.new ≡ host_levels mode (mapping_of dimmer) octets.now levels.old }
    ensures value { result ≡ host_written (mapping_of dimmer) (length octets.now) (length levels.old) }
{
    host::mewkoast_levels(dimmer, mode, octets, levels)
}
