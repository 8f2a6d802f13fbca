// What a layer above keeps of layouts and mappings: two octets of sizes and an area of octets that serves either. specs/Kept.antt says how
// an area is read. Every area is read as something: sizes above the limits are read as the limits.
ghost use Rattle.std.specs.Prelude.{◌≡◌, ◌+◌, ◌*◌, ◌≤◌, length};
ghost use Rattle.tags.specs.Layout.{sample_of, mapping_of, empty_layout, empty_dimmer};
ghost use Rattle.tags.specs.Kept.{space_place, area_size, word_at, words_at, sample_in, mapping_in, sizes_fit, word_octets, octets_put};

use crate::levels::copy;
use crate::limits::{COLOUR_LIMIT, OCTET_LIMIT, SUBSET_LIMIT};
use crate::{Dimmer, Layout};

// The octets of an area, and its places as specs/Kept.antt names them.
pub const AREA: usize = BASE_PLACE + 2;

const SPACE_PLACE: usize = OCTET_LIMIT + COLOUR_LIMIT * 2;

const COUNTS_PLACE: usize = SUBSET_LIMIT * 2;

const BASE_PLACE: usize = SUBSET_LIMIT * 3;

// ---- records that say nothing. By hand: their clauses name what callers cite, and a derive's says of each field that it has its default.

impl Default for Layout {
    // A layout that says nothing.
    #[tactic(auto, unfolding(crate::specs::Layout::padded))]
    fn default() -> Self
        ensures { result ≡ empty_layout }
    {
        Layout {
            roles: [0u8; OCTET_LIMIT],
            waves: [0; COLOUR_LIMIT],
            space: 0,
            width: 0,
            colours: 0,
        }
    }
}

impl Default for Dimmer {
    // A mapping that says nothing.
    #[tactic(auto, unfolding(crate::specs::Layout::padded))]
    fn default() -> Self
        ensures { result ≡ empty_dimmer }
    {
        Dimmer {
            bases: [0; SUBSET_LIMIT],
            counts: [0; SUBSET_LIMIT],
            base: 0,
            count: 0,
        }
    }
}

// ---- sizes

// Both sizes are within what an area holds. No branch, so that a loop over channels can test several at once.
#[tactic(auto, unfolding(crate::specs::Kept::sizes_fit))]
pub fn sizes_fit(size: u8, colours: u8) -> bool
    ensures { result ≡ sizes_fit size colours }
{
    (usize::from(size) <= SUBSET_LIMIT) & (usize::from(colours) <= COLOUR_LIMIT)
}

// ---- out of an area

// The word at place `from`.
fn word_at(area: &[u8; AREA], from: usize) -> u16
    requires { from + 2 ≤ area_size }
    ensures { result ≡ word_at area.now from }
{
    u16::from_le_bytes([area[from], area[from + 1]])
}

// The N words from `from` on. Places are counted: what is written through a zip of `iter_mut`, or through `as_chunks_mut`, has no contract; over
// `array::from_fn`, whose contract lets each call change the closure, the proof takes a lemma of its own, and did not close without.
#[tactic(auto, using(crate::proofs::KeptSteps::words), unfolding(crate::specs::Kept::words_at))]
fn words_at<const N: usize>(area: &[u8; AREA], from: usize) -> [u16; N]
    requires { from + N * 2 ≤ area_size }
    ensures { result ≡ words_at area.now from N }
{
    let mut words = [0; N];
    for (i, word) in words.iter_mut().enumerate() {
        *word = word_at(area, from + i * 2);
    }
    words
}

// The space modifier's word.
pub fn space_in(area: &[u8; AREA]) -> u16
    ensures { result ≡ word_at area.now space_place }
{
    word_at(area, SPACE_PLACE)
}

// The layout of a sample of that many octets and colours.
pub fn layout_in(size: u8, colours: u8, area: &[u8; AREA]) -> Layout
    ensures { sample_of result ≡ sample_in size colours area.now }
{
    let mut roles = [0; OCTET_LIMIT];
    roles.copy_from_slice(&area[..OCTET_LIMIT]);
    Layout {
        roles,
        waves: words_at(area, OCTET_LIMIT),
        space: space_in(area),
        width: size,
        colours,
    }
}

// The dimmer record of that many subsets.
pub fn dimmer_in(size: u8, area: &[u8; AREA]) -> Dimmer
    ensures { mapping_of result ≡ mapping_in size area.now }
{
    let mut counts = [0; SUBSET_LIMIT];
    counts.copy_from_slice(&area[COUNTS_PLACE..BASE_PLACE]);
    Dimmer {
        bases: words_at(area, 0),
        counts,
        base: word_at(area, BASE_PLACE),
        count: size,
    }
}

// ---- into an area

// The words, low octet first, put in from `from` on. Places are counted, as in words_at.
fn put_words(words: &[u16], area: &mut [u8], from: usize)
    requires { from + length words.now * 2 ≤ length area.old }
    ensures { area.new ≡ octets_put area.old from (word_octets words.now) }
{
    for (i, word) in words.iter().enumerate() {
        let [low, high] = word.to_le_bytes();
        area[from + i * 2] = low;
        area[from + i * 2 + 1] = high;
    }
}

// The layout put into an area, of which its sizes then read it back.
pub fn keep_layout(layout: Layout, area: &mut [u8; AREA])
    ensures area_after { sample_in layout.width layout.colours area.new ≡ sample_of layout }
    ensures area_len { length area.new ≡ area_size }
{
    area[..OCTET_LIMIT].copy_from_slice(&layout.roles);
    put_words(&layout.waves, area, OCTET_LIMIT);
    put_words(&[layout.space], area, SPACE_PLACE);
}

// The dimmer record put into an area, of which its count then reads it back.
pub fn keep_dimmer(dimmer: Dimmer, area: &mut [u8; AREA])
    ensures area_after { mapping_in dimmer.count area.new ≡ mapping_of dimmer }
    ensures area_len { length area.new ≡ area_size }
{
    put_words(&dimmer.bases, area, 0);
    // `copy`: for a part between two constants in place of the call the proof did not close.
    copy(&dimmer.counts, area, COUNTS_PLACE);
    put_words(&[dimmer.base], area, BASE_PLACE);
}
