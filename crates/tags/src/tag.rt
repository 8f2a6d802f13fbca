// One tag of a dictionary: a 16-bit word of four nibbles, read as what it asks for. specs/TagView.antt says which words a Tag is read from.
ghost use Rattle.std.specs.Prelude.{◌≡◌, ◌<◌};
ghost use Rattle.tags.specs.Tag.{takes_octet, reserved_space};
ghost use Rattle.tags.specs.TagView.{slot_of, barred_by, Reads};

use super::refusal::Refusal;

// Which of the sixteen categories take an octet of the sample: 4 and 5 do. An array of 16, as the project asks (docs/DECISIONS.md); with 0 and
// 1 for false and true it is one line.
const OCTETS: [u8; 16] = [0, 0, 0, 0, 1, 1, 0, 0, 0, 0, 0, 0, 0, 0, 0, 0];

// The signals that a dictionary has at most once, each the number of its slot of the row.
#[derive(Clone, Copy, Debug, PartialEq, Eq)]
pub enum Signal {
    X = 0,
    Y = 1,
    Z = 2,
    SecondX = 3,
    SecondY = 4,
    Intensity = 6,
    Brush = 7,
}

impl Signal {
    // A method: at a call, `slot()` says which number it is, and `u8::from` would not.
    pub fn slot(self) -> u8
        ensures value { result ≡ slot_of self }
        ensures bound { result < 8 }
    {
        self as u8
    }
}

#[derive(Clone, Copy, Debug, PartialEq, Eq)]
pub enum HintFormat {
    Scales,
    ScalesAndShutter,
}

#[derive(Clone, Copy, Debug, PartialEq, Eq)]
pub enum Tag {
    // The next words, so many, are skipped unread: Void, or an unknown tag of its group.
    Skip(u8),
    // The space modifier, its word.
    Space(u16),
    Nop,
    Precision,
    Hint(HintFormat),
    Signal(Signal),
    // A colour of that wavelength in nm.
    Colour(u16),
    // The colour whose wavelength a prefix gives.
    PrefixedColour,
    Prefix,
    // An unknown tag of another group, passed over.
    Unknown,
}

impl Tag {
    // The rest of check 9: a hint of format 1 is of mode 1 alone. A mode by its number, as in dictionary.rt.
    pub fn is_barred_in(self, mode: u8) -> bool
        ensures { result ≡ barred_by self mode }
    {
        mode != 1 && self == Tag::Hint(HintFormat::ScalesAndShutter)
    }
}

// The category is the first nibble.
pub fn takes_octet(word: u16) -> bool
    ensures { result ≡ takes_octet word }
{
    OCTETS[usize::from(word / 4096)] == 1
}

// GLIN, CBAL and CTIM are the first, third and fourth pair of bits of the low octet; CLIN, the second, has no reserved value.
#[tactic(auto, unfolding(crate::specs::Tag::reserved_space))]
fn reserves_space(word: u16) -> bool
    ensures { result ≡ reserved_space word }
{
    word / 64 % 4 == 2 || word / 4 % 4 == 2 || word % 4 == 2
}

// Checks 8 and 9, but for 4101, which one mode alone refuses.
impl TryFrom<u16> for Tag {
    type Error = Refusal;

    ghost try_from_gives = { Reads };

    #[tactic(auto, using(std::proofs::lemmas::Bool::Decides::nat_tests), unfolding(crate::specs::Tag::defined_group, crate::specs::Tag::known_tag, crate::specs::Tag::is_single, crate::specs::Tag::reserved_space))]
    fn try_from(word: u16) -> Result<Tag, Refusal> {
        match word {
            0x0000..=0x00FF => Ok(Tag::Skip((word % 16) as u8)),
            0x1000..=0x100F | 0x4102..=0x410F => Err(Refusal::Barred),
            0x1010..=0x10FF => Ok(Tag::Unknown),
            0x1100..=0x11FF if reserves_space(word) => Err(Refusal::Barred),
            0x1100..=0x11FF => Ok(Tag::Space(word)),
            0x4000 => Ok(Tag::Nop),
            0x4010 => Ok(Tag::Precision),
            0x4100 => Ok(Tag::Hint(HintFormat::Scales)),
            0x4101 => Ok(Tag::Hint(HintFormat::ScalesAndShutter)),
            0x4200 => Ok(Tag::Signal(Signal::X)),
            0x4201 => Ok(Tag::Signal(Signal::SecondX)),
            0x4210 => Ok(Tag::Signal(Signal::Y)),
            0x4211 => Ok(Tag::Signal(Signal::SecondY)),
            0x4220 => Ok(Tag::Signal(Signal::Z)),
            0x5000 => Ok(Tag::PrefixedColour),
            0x5001..=0x53FF => Ok(Tag::Colour(word % 1024)),
            0x5C00 => Ok(Tag::Prefix),
            0x5C10 => Ok(Tag::Signal(Signal::Intensity)),
            0x5C20 => Ok(Tag::Signal(Signal::Brush)),
            0x4000..=0x42FF | 0x5C00..=0x5CFF => Ok(Tag::Unknown),
            _ => Err(Refusal::Undefined),
        }
    }
}
