// The dictionary check: the tags of mode 1 or 2 are walked word by word, and what they say of a sample is a Layout. specs/Dictionary.antt says
// what is right.
ghost use Rattle.std.specs.Prelude.{◌≡◌};
ghost use Rattle.tags.specs.Layout.{dictionary_checked, empty_layout};
ghost use Rattle.tags.specs.CheckedView.{checked_of};

use super::refusal::Refusal;
use super::walk::Walk;
use super::{Checked, Layout};

// What the tags say, or the first refusal. The mode is a number, here and in the walk: this is public and promises something for every number,
// and an enum would ask more of callers.
pub fn read(mode: u8, tags: &[u8]) -> Result<Layout, Refusal>
    ensures { checked_of result ≡ dictionary_checked mode tags.now }
{
    let mut walk = Walk::new();
    let (mut words, _) = tags.as_chunks::<2>();
    while let [word, rest @ ..] = words {
        walk.step(mode, u16::from_be_bytes(*word), rest.len())?;
        words = rest;
    }
    walk.check_end()?;
    Ok(walk.into_layout())
}

// As a C host has it: a refusal by its number, with a layout that says nothing. Mapped has its like, since C has two structs.
impl From<Result<Layout, Refusal>> for Checked {
    ghost from_gives = { λ answer checked. checked ≡ checked_of answer };

    fn from(answer: Result<Layout, Refusal>) -> Checked {
        match answer {
            Ok(layout) => Checked { number: 0, layout },
            Err(refusal) => refused(refusal.number()),
        }
    }
}

// A number with a layout that says nothing.
pub fn refused(number: u8) -> Checked
    ensures { result ≡ record { number = number; layout = empty_layout } }
{
    let layout = Layout::default();
    Checked { number, layout }
}

// The dictionary check, so answered.
pub fn check(mode: u8, tags: &[u8]) -> Checked
    ensures { result ≡ dictionary_checked mode tags.now }
{
    Checked::from(read(mode, tags))
}
