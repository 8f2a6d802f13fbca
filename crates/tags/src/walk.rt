// The dictionary walk: what the words read so far say of a sample, and what the last of them allows. specs/DictionaryView.antt says how it is
// read, specs/Dictionary.antt what is right.
ghost use Rattle.std.specs.Prelude.{◌≡◌, ◌≤◌, not, eqb};
ghost use Rattle.std.specs.Option.{is_some, unwrap_or};
ghost use Rattle.samples.specs.Roles.{first_octet_of, precision_of};

use super::Layout;
use super::limits::{COLOUR_LIMIT, OCTET_LIMIT};
use super::refusal::Refusal;
use super::tag::{HintFormat, Signal, Tag, takes_octet};
use samples::fixed_list::FixedList;

// Roles of octets, numbers since C reads them in a Layout, as in the crate samples, where they are places of a table: an octet that nothing takes; the first octet of slot s has the
// role s + FIRST_OCTET, its precision octet s + PRECISION_OCTET; the hint's octet has one of two, by its format.
const IGNORED: u8 = 0;

const FIRST_OCTET: u8 = 1;

const PRECISION_OCTET: u8 = 33;

const HINT: u8 = 65;

const HINT_WITH_SHUTTER: u8 = 66;

// The slots of the first colour and of its wavelength.
const COLOURS: u8 = 8;

const WAVELENGTHS: u8 = 16;

// The roles of a signal's octet and of a precision octet behind it.
fn roles_for(slot: u8) -> (u8, Option<u8>)
    requires { slot ≤ 24 }
    ensures { result ≡ (first_octet_of slot, Some (precision_of slot)) }
{
    (slot + FIRST_OCTET, Some(slot + PRECISION_OCTET))
}

#[derive(Drop)]
pub struct Walk {
    roles: FixedList<u8, OCTET_LIMIT>,
    // The wavelengths of the colours, 0 where a prefix gives it.
    waves: FixedList<u16, COLOUR_LIMIT>,
    // The space modifier's word.
    space: Option<u16>,
    // How many words are still skipped.
    skip: u8,
    // The role of a precision octet, where a precision may stand next.
    precision: Option<u8>,
    // Whether a prefix, with its precision if any, waits for its 5000. A bit of its own: it says nothing of another field.
    waiting: bool,
    ghost space_is_not_0: { is_some space ≡ not (eqb (unwrap_or space 0) 0) },
}

impl Walk {
    ghost use Rattle.std.specs.Prelude.{length, MatchResult, false};
    ghost use Rattle.samples.specs.Roles.{has};
    ghost use Rattle.tags.specs.Dictionary.{nothing_read, step, end_number, incomplete};
    ghost use Rattle.tags.specs.Layout.{layout_of};
    ghost use Rattle.tags.specs.Refusal.{number_in};
    ghost use Rattle.tags.specs.DictionaryView.{allowed_of, sample_in, walk_of, misplaced_by, repeated_by, roles_by, waiting_by, passed, IsWritten, StepsTo};

    // Nothing is read.
    pub fn new() -> Self
        ensures { walk_of result ≡ nothing_read 0 }
    {
        Walk {
            roles: FixedList::new(IGNORED),
            waves: FixedList::new(0),
            space: None,
            skip: 0,
            precision: None,
            waiting: false,
        }
    }

    // Whether an octet has the role.
    fn has(&self, role: u8) -> bool
        ensures { result ≡ has self.now.roles role }
    {
        self.roles.contains(&role)
    }

    // ---- checks 10 and 11

    // Check 10: `left` words stand after the tag, and it may skip no more.
    fn is_misplaced(&self, tag: Tag, left: usize) -> bool
        ensures { result ≡ misplaced_by tag left (allowed_of self.now) }
    {
        match tag {
            Tag::Precision => self.precision.is_none(),
            Tag::PrefixedColour => !self.waiting,
            Tag::Skip(count) => self.waiting || left < usize::from(count),
            _ => self.waiting,
        }
    }

    // Check 11. An octet or a colour too many is refused here, so a tag that passes has room.
    // `octet`, whether it takes one, goes along here and below: two unknown tags differ in it alone, and an array of 16 has it by the word.
    #[tactic(auto, using(std::proofs::lemmas::Bool::Decides::nat_tests))]
    fn is_repeated(&self, tag: Tag, octet: bool) -> bool
        ensures { result ≡ repeated_by tag octet (sample_in self.now) }
    {
        if octet && self.roles.is_full() {
            return true;
        }
        match tag {
            Tag::Colour(_) | Tag::PrefixedColour => self.waves.is_full(),
            Tag::Signal(signal) => self.has(signal.slot() + FIRST_OCTET),
            Tag::Hint(_) => self.has(HINT) || self.has(HINT_WITH_SHUTTER),
            Tag::Space(_) => self.space.is_some(),
            _ => false,
        }
    }

    // ---- a tag that passes

    // The roles of its octet and of a precision octet behind it, where one may stand; `octet` says whether it takes one.
    fn roles(&self, tag: Tag, octet: bool) -> (u8, Option<u8>)
        ensures { result ≡ roles_by tag octet (walk_of self.now) }
    {
        match tag {
            Tag::Precision => (self.precision.unwrap_or(IGNORED), None),
            Tag::Hint(HintFormat::Scales) => (HINT, None),
            Tag::Hint(HintFormat::ScalesAndShutter) => (HINT_WITH_SHUTTER, None),
            Tag::Signal(signal) => roles_for(signal.slot()),
            Tag::Colour(_) | Tag::PrefixedColour => roles_for(COLOURS + self.waves.len()),
            Tag::Prefix => roles_for(WAVELENGTHS + self.waves.len()),
            Tag::Unknown if octet => (IGNORED, Some(IGNORED)),
            _ => (IGNORED, None),
        }
    }

    // The walk past it.
    #[tactic(auto, using(std::proofs::lemmas::Bool::Decides::nat_tests))]
    fn pass(&mut self, tag: Tag, octet: bool)
        requires unskipped { self.old.skip ≡ 0 }
        requires written { IsWritten tag }
        requires room { repeated_by tag octet (sample_in self.old) ≡ false }
        ensures { walk_of self.new ≡ passed tag octet (walk_of self.old) }
    {
        let (role, precision) = self.roles(tag, octet);
        self.waiting = match tag {
            Tag::Prefix => true,
            Tag::Precision => self.waiting,
            _ => false,
        };
        self.precision = precision;
        if octet {
            self.roles.push(role);
        }
        match tag {
            Tag::Skip(count) => self.skip = count,
            Tag::Space(word) => self.space = Some(word),
            Tag::Colour(wavelength) => self.waves.push(wavelength),
            Tag::PrefixedColour => self.waves.push(0),
            _ => {}
        }
    }

    // ---- one word, and the end

    // The walk past a word, behind which `left` words stand; a word that is skipped is not read. A mode by its number, as in dictionary.rt.
    pub fn step(&mut self, mode: u8, word: u16, left: usize) -> Result<(), Refusal>
        ensures { StepsTo (step mode left word (walk_of self.old)) result (walk_of self.new) }
    {
        if self.skip > 0 {
            self.skip -= 1;
            return Ok(());
        }
        let tag = Tag::try_from(word)?;
        if tag.is_barred_in(mode) {
            return Err(Refusal::Barred);
        }
        if self.is_misplaced(tag, left) {
            return Err(Refusal::Misplaced);
        }
        let octet = takes_octet(word);
        if self.is_repeated(tag, octet) {
            return Err(Refusal::Repeated);
        }
        self.pass(tag, octet);
        Ok(())
    }

    // Check 12.
    #[tactic(auto, unfolding(crate::specs::Dictionary::incomplete))]
    fn is_incomplete(&self) -> bool
        ensures { result ≡ incomplete (sample_in self.now) }
    {
        !self.has(Signal::X.slot() + FIRST_OCTET)
            || !self.has(Signal::Y.slot() + FIRST_OCTET)
            || self.waves.is_empty()
    }

    // Whether the words may end here.
    #[tactic(auto, unfolding(crate::specs::Dictionary::end_number))]
    pub fn check_end(&self) -> Result<(), Refusal>
        ensures { number_in result ≡ end_number (walk_of self.now) }
    {
        if self.waiting {
            return Err(Refusal::Misplaced);
        }
        if self.is_incomplete() {
            return Err(Refusal::Incomplete);
        }
        Ok(())
    }

    // What they say.
    #[tactic(auto, unfolding(crate::specs::Layout::padded))]
    pub fn into_layout(self) -> Layout
        ensures { result ≡ layout_of (sample_in self) }
    {
        Layout {
            width: self.roles.len(),
            colours: self.waves.len(),
            space: self.space.unwrap_or(0),
            roles: self.roles.into_array(IGNORED),
            waves: self.waves.into_array(0),
        }
    }
}
