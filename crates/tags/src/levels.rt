// Levels to places (document 01, "Dimmer tags, modes 4 and 6" and check 21): the octets of a dimmer chunk go to the lent levels as
// the mapping says. specs/Levels.antt has the definitions. Any dimmer record is taken: a count above its arrays is read as their length.
ghost use Rattle.std.specs.Prelude.{◌≡◌, cond, ◌++◌, ◌+◌, ◌*◌, ◌<◌, ◌≤◌, ◌^◌, min, length, take, drop, leb, get_or};
ghost use Rattle.tags.specs.Limits.{subset_limit, level_end};
ghost use Rattle.tags.specs.Dimmer.{mapping_in_range};
ghost use Rattle.tags.specs.Layout.{mapping_of};
ghost use Rattle.tags.specs.Levels.{whole_base, count_sum, mapped, mapped_sum, levels_fit, place_of_level, put_levels, put_subsets, levels_drawn, levels_counted};

use crate::Dimmer;
use crate::dimming::{Subset, base_in_range};
use crate::limits::{DROP_BASE, LEVEL_END, SUBSET_LIMIT};

impl Dimmer {
    // how many subsets the record holds
    #[tactic(auto, using(crate::proofs::SubsetLaws::length_subsets_to))]
    fn held(&self) -> usize
        ensures { (result ≡ length (mapping_of self.now).subsets) × (result ≡ min self.now.count subset_limit) }
    {
        usize::from(self.count).min(SUBSET_LIMIT)
    }

    // the subset in place j
    #[tactic(auto, using(crate::proofs::SubsetLaws::in_arrays))]
    fn subset(&self, j: usize) -> Subset
        requires { (j < subset_limit) × (j < length (mapping_of self.now).subsets) }
        ensures value { result.base * 256 + result.count ≡ get_or (mapping_of self.now).subsets j 0 }
        ensures octet { result.count < 256 }
    {
        Subset {
            base: self.bases[j],
            count: self.counts[j],
        }
    }

    // the base of the contiguous set, where there is no 43
    fn whole_base(&self) -> u16
        ensures { result ≡ whole_base (mapping_of self.now) }
    {
        if self.base == 0 { 1 } else { self.base }
    }

    // The octets that the subsets describe, dropped ones included. Here and below the subsets are gone through by index: C has their bases and
    // counts in two arrays, and over a zip of these the proofs did not close.
    #[tactic(auto, using(crate::proofs::LevelWriteLaws::count_sum_turn, crate::proofs::LevelWriteLaws::all_taken), unfolding(crate::specs::Levels::count_sum))]
    fn count_sum(&self) -> usize
        ensures { result ≡ count_sum (mapping_of self.now).subsets }
    {
        let mut sum = 0;
        for j in 0..self.held() {
            sum += usize::from(self.subset(j).count);
        }
        sum
    }

    // Check 21: whether that many levels go with the mapping.
    #[tactic(auto, unfolding(crate::specs::Levels::levels_fit))]
    pub fn fits(&self, octets: usize) -> bool
        ensures { result ≡ levels_fit (mapping_of self.now) octets }
    {
        if self.held() == 0 {
            let base = self.whole_base();
            return ends_within(base, octets) || base == DROP_BASE;
        }
        octets == self.count_sum()
    }

    // Whether the base of a mapping, or 0 without one, and each subset are in range, as check 13 leaves them. A record that a host kept
    // is held to it.
    #[tactic(auto, using(crate::proofs::LevelWriteLaws::in_range_turn, crate::proofs::LevelWriteLaws::all_taken), unfolding(crate::specs::Dimmer::all_in_range))]
    pub fn is_in_range(&self) -> bool
        ensures { result ≡ mapping_in_range (mapping_of self.now) }
    {
        let mut in_range = self.base == 0 || base_in_range(self.base);
        for j in 0..self.held() {
            in_range &= self.subset(j).is_in_range();
        }
        in_range
    }

    // The octets of each subset in turn, and how many are written. A dropped subset takes its octets too, so that the next ones have
    // theirs.
    #[tactic(auto, using(crate::proofs::LevelWriteLaws::turns), unfolding(crate::specs::Levels::count_sum, crate::specs::Levels::mapped_sum, crate::specs::Levels::put_subsets))]
    fn write_subsets(&self, mode: u8, octets: &[u8], levels: &mut [u8]) -> usize
        requires { length octets.now ≡ count_sum (mapping_of self.now).subsets }
        ensures levels_after { levels.new ≡ put_subsets mode (mapping_of self.now).subsets octets.now levels.old }
        ensures value { result ≡ mapped_sum (mapping_of self.now).subsets }
    {
        let mut written = 0;
        let mut rest = octets;
        for j in 0..self.held() {
            let Subset { base, count } = self.subset(j);
            let (part, behind) = rest.split_at(usize::from(count));
            written += put(mode, base, part, levels);
            rest = behind;
        }
        written
    }

    // The levels of a dimmer chunk written where there is room, and how many it has for the 1,024 places; where check 21 does not pass,
    // none. The mode is a number, here and where it is handed on: this is public and promises something for every number, and an enum would
    // ask more of callers.
    #[tactic(auto, using(crate::proofs::LevelWriteLaws::bounds), unfolding(crate::specs::Levels::levels_fit, crate::specs::Levels::levels_drawn, crate::specs::Levels::levels_counted, crate::specs::Levels::levels_after, crate::specs::Levels::levels_written))]
    pub fn write(&self, mode: u8, octets: &[u8], levels: &mut [u8]) -> usize
        ensures levels_after { levels.new ≡ levels_drawn mode (mapping_of self.now) octets.now levels.old }
        ensures value { result ≡ levels_counted (mapping_of self.now) (length octets.now) }
        ensures bound { result ≤ length octets.now }
    {
        if !self.fits(octets.len()) {
            return 0;
        }
        if self.held() == 0 {
            return put(mode, self.whole_base(), octets, levels);
        }
        self.write_subsets(mode, octets, levels)
    }
}

// whether so many levels from that base on end at the last one
fn ends_within(base: u16, octets: usize) -> bool
    ensures { result ≡ leb (base + octets) level_end }
{
    octets <= LEVEL_END && usize::from(base) + octets <= LEVEL_END
}

// the place of level number `base`: mode 6 has the upper half of the levels, and every other mode is taken for 4
fn place_of(mode: u8, base: u16) -> usize
    requires { 1 ≤ base }
    ensures { (result ≡ place_of_level mode base) × (result < 2 ^ 17) }
{
    if mode == 6 {
        511 + usize::from(base)
    } else {
        usize::from(base) - 1
    }
}

// `part` copied into the levels from `place` on. A loop: `copy_from_slice` of a part whose length is not known takes memmove of the C library, and
// the archives take memcpy and memset alone.
pub fn copy(part: &[u8], levels: &mut [u8], place: usize)
    requires { place + length part.now ≤ length levels.old }
    ensures { levels.new ≡ take place levels.old ++ part.now ++ drop (place + length part.now) levels.old }
{
    for (i, octet) in part.iter().enumerate() {
        levels[place + i] = *octet;
    }
}

// `part` written from level number `base` on, where it is mapped and within the levels; and how many are mapped
#[tactic(auto, unfolding(crate::specs::Levels::put_levels))]
fn put(mode: u8, base: u16, part: &[u8], levels: &mut [u8]) -> usize
    ensures levels_after { levels.new ≡ put_levels mode base part.now levels.old }
    ensures value { result ≡ cond (mapped base (length part.now)) (length part.now) 0 }
{
    if base == 0 || !ends_within(base, part.len()) {
        return 0;
    }
    let place = place_of(mode, base);
    if place + part.len() <= levels.len() {
        copy(part, levels, place);
    }
    part.len()
}
