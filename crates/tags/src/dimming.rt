// Dimmer tags, checks 13 and 14. A tag says how many octets after it are its own, and the walk goes from tag to tag. specs/Dimmer.antt has
// the same walk as definitions, octet by octet; specs/DimmerView.antt says what the types here are in their terms.
ghost use Rattle.std.specs.Prelude.{◌≡◌, true, false, cond, ◌&&◌, ◌||◌, ◌+◌, ◌*◌, ◌<◌, ◌≤◌, length, Ok, Err, IfOk};
ghost use Rattle.tags.specs.Dimmer.{no_mapping, base_of, count_of, overlap, overlaps_any, base_in_range, count_in_range};
ghost use Rattle.tags.specs.Layout.{dimmer_of, dimmer_mapped};
ghost use Rattle.tags.specs.DimmerView.{subset_number, mapping_so_far, Based, tag_in_range, tag_read, tag_clashes, clash_if, with_tag, mapped_in};

use crate::limits::{DROP_BASE, LAST_LEVEL, LEVEL_END, SUBSET_LIMIT};
use crate::refusal::Refusal;
use crate::{Dimmer, Mapped};
use samples::fixed_list::FixedList;

// `count` levels from number `base` on, or that many octets that are dropped.
#[derive(Clone, Copy, Debug, PartialEq, Eq)]
pub(crate) struct Subset {
    pub base: u16,
    pub count: u8,
}

impl Subset {
    // what follows its last level
    fn end(self) -> u32
        ensures { result ≡ self.base + self.count }
    {
        u32::from(self.base) + u32::from(self.count)
    }

    // base and count, as they are in a mapping
    fn parts(self) -> (u16, u8)
        ensures base { base_of (subset_number self) ≡ result.0 }
        ensures count { count_of (subset_number self) ≡ result.1 }
    {
        (self.base, self.count)
    }

    // whether two subsets share a level; a dropped one has none
    fn overlaps(self, other: Subset) -> bool
        ensures { result ≡ overlap (subset_number self) (subset_number other) }
    {
        self.base != DROP_BASE
            && other.base != DROP_BASE
            && u32::from(self.base) < other.end()
            && u32::from(other.base) < self.end()
    }

    pub fn is_in_range(self) -> bool
        ensures { result ≡ (base_in_range self.base && count_in_range self.base self.count) }
    {
        base_in_range(self.base) && count_in_range(self.base, self.count)
    }
}

pub fn base_in_range(base: u16) -> bool
    ensures { result ≡ base_in_range base }
{
    matches!(base, 1..=LAST_LEVEL | DROP_BASE)
}

pub fn count_in_range(base: u16, count: u8) -> bool
    ensures { result ≡ count_in_range base count }
{
    count >= 1 && (usize::from(base) + usize::from(count) <= LEVEL_END || base == DROP_BASE)
}

// A tag with its operands.
#[derive(Clone, Copy, Debug, PartialEq, Eq)]
enum Tag {
    // 0n: the next n octets are passed over
    Skip,
    // 42: the base of the contiguous set
    Whole(u16),
    // 43
    Part(Subset),
}

impl Tag {
    // The first tag of the octets; check 13 refuses it where it is unknown, out of range or passes the end.
    #[tactic(auto, unfolding(crate::specs::Dimmer::bad_dimmer_tag))]
    fn read(tags: &[u8]) -> Result<Tag, Refusal>
        ensures value { result ≡ tag_read tags.now }
        ensures in_range { IfOk result (λ tag. tag_in_range tag ≡ true) }
    {
        match tags {
            [0x42, high, low, ..] => Tag::Whole(u16::from_be_bytes([*high, *low])).checked(),
            [0x43, high, low, count, ..] => {
                let base = u16::from_be_bytes([*high, *low]);
                Tag::Part(Subset {
                    base,
                    count: *count,
                })
                .checked()
            }
            [skip, own @ ..] if *skip < 16 && usize::from(*skip) <= own.len() => Ok(Tag::Skip),
            _ => Err(Refusal::BadDimmerTag),
        }
    }

    // check 13 of what it says
    fn checked(self) -> Result<Tag, Refusal>
        ensures { result ≡ cond (tag_in_range self) (Ok self) (Err Refusal.BadDimmerTag) }
    {
        let in_range = match self {
            Tag::Skip => true,
            Tag::Whole(base) => base_in_range(base),
            Tag::Part(subset) => subset.is_in_range(),
        };
        if in_range {
            Ok(self)
        } else {
            Err(Refusal::BadDimmerTag)
        }
    }
}

// What the tags so far say: the base of a 42, or the subsets of the 43s.
#[derive(Drop)]
struct Walk {
    base: Option<u16>,
    subsets: FixedList<Subset, SUBSET_LIMIT>,
}

impl Walk {
    fn new() -> Walk
        ensures value { mapping_so_far result ≡ no_mapping }
        ensures based { Based result }
    {
        Walk {
            base: None,
            subsets: FixedList::new(Subset { base: 0, count: 0 }),
        }
    }

    // whether a subset shares a level with one of those so far
    fn overlaps(&self, subset: Subset) -> bool
        ensures { result ≡ overlaps_any (subset_number subset) (mapping_so_far self.now).subsets }
    {
        self.subsets
            .as_slice()
            .iter()
            .any(|other| subset.overlaps(*other))
    }

    // What a tag says taken in; check 14 refuses it where it doesn't go with those before it.
    fn take(&mut self, tag: Tag) -> Result<(), Refusal>
        requires in_range { tag_in_range tag ≡ true }
        requires based { Based self.old }
        ensures value { result ≡ clash_if (tag_clashes tag (mapping_so_far self.old)) }
        ensures after { mapping_so_far self.new ≡ cond (tag_clashes tag (mapping_so_far self.old)) (mapping_so_far self.old) (with_tag tag (mapping_so_far self.old)) }
        ensures based { Based self.new }
    {
        match tag {
            Tag::Skip => Ok(()),
            Tag::Whole(base) => {
                if self.base.is_some() || !self.subsets.is_empty() {
                    return Err(Refusal::Clash);
                }
                self.base = Some(base);
                Ok(())
            }
            Tag::Part(subset) => {
                if self.base.is_some() || self.subsets.is_full() || self.overlaps(subset) {
                    return Err(Refusal::Clash);
                }
                self.subsets.push(subset);
                Ok(())
            }
        }
    }

    // The mapping as C has it.
    #[tactic(auto, using(crate::proofs::DimmerWalkLaws::stored), unfolding(crate::specs::Layout::padded))]
    fn to_dimmer(&self) -> Dimmer
        ensures { result ≡ dimmer_of (mapping_so_far self.now) }
    {
        let mut bases = [0; SUBSET_LIMIT];
        let mut counts = [0; SUBSET_LIMIT];
        for (i, subset) in self.subsets.as_slice().iter().enumerate() {
            (bases[i], counts[i]) = subset.parts();
        }
        Dimmer {
            bases,
            counts,
            base: self.base.unwrap_or(0),
            count: self.subsets.len(),
        }
    }
}

// The tags of a configuration in mode 4 or 6: the refusal of the first tag that is refused, or what they say.
pub fn read(tags: &[u8]) -> Result<Dimmer, Refusal>
    ensures { mapped_in result ≡ dimmer_mapped tags.now }
{
    let mut walk = Walk::new();
    let mut rest = tags;
    while let [tag, ..] = rest {
        walk.take(Tag::read(rest)?)?;
        rest = &rest[1 + usize::from(*tag % 16)..];
    }
    Ok(walk.to_dimmer())
}

// As Checked has in dictionary.rt: C has two structs.
impl From<Result<Dimmer, Refusal>> for Mapped {
    ghost from_gives = { λ answer mapped. mapped ≡ mapped_in answer };

    fn from(answer: Result<Dimmer, Refusal>) -> Self {
        match answer {
            Ok(dimmer) => Mapped { number: 0, dimmer },
            Err(refusal) => Mapped {
                number: refusal.number(),
                dimmer: Dimmer::default(),
            },
        }
    }
}

// The same as C has it: the number of the refusal, 13 or 14, with a mapping that says nothing, or 0 with the mapping.
pub fn check(tags: &[u8]) -> Mapped
    ensures { result ≡ dimmer_mapped tags.now }
{
    Mapped::from(read(tags))
}
