// A chunk, its type, its fields, and checks 18 to 22 on it.
ghost use Rattle.std.specs.Prelude.{◌≡◌, cond, ◌≤◌, ◌<◌, ◌^◌, length, IfOk};
ghost use Rattle.tags.specs.Choice.{refuse};
ghost use Rattle.tags.specs.Rows.{samples_of, points_for};
ghost use Rattle.tags.specs.Layout.{mapping_of};
ghost use Rattle.tags.specs.Kept.{octets_of};
ghost use Rattle.receiver.specs.Message.{sequel_type};
ghost use Rattle.receiver.specs.Chunk.{body, duration, start_samples};
ghost use Rattle.receiver.specs.Governing.{Configuration};
ghost use Rattle.receiver.specs.Checks.{wrong_data, mismatched, most_octets, draw_number, dim_number};
ghost use Rattle.receiver.specs.Kinds.{type_number, ReadsType};
ghost use Rattle.receiver.specs.Refusal.{number_in};
ghost use Rattle.receiver.specs.Views.{chunk_as};

use super::header::octet;
use super::refusal::Refusal;
use tags::Dimmer;
use tags::limits::{PLACE_COUNT, ROW};

// The types of a chunk that there are. A frame that is too long for one message comes as First and then Sequels.
#[derive(Clone, Copy, Debug, PartialEq, Eq)]
pub enum ChunkType {
    Void = 0x00,
    Wave = 0x01,
    Frame = 0x02,
    First = 0x03,
    Levels = 0x18,
    Sequel = 0xC0,
}

// Check 4.
impl TryFrom<u8> for ChunkType {
    type Error = Refusal;

    ghost try_from_gives = { ReadsType };

    fn try_from(number: u8) -> Result<Self, Refusal> {
        match number {
            0x00 => Ok(ChunkType::Void),
            0x01 => Ok(ChunkType::Wave),
            0x02 => Ok(ChunkType::Frame),
            0x03 => Ok(ChunkType::First),
            0x18 => Ok(ChunkType::Levels),
            0xC0 => Ok(ChunkType::Sequel),
            _ => Err(Refusal::ChunkType),
        }
    }
}

// A chunk: its type, and the data section, where its four octets of header stand before samples or levels.
#[derive(Clone, Copy)]
pub struct Chunk<'a> {
    pub chunk_type: ChunkType,
    pub section: &'a [u8],
}

impl<'a> Chunk<'a> {
    // Check 18, which a sequel passes by.
    pub(crate) fn check_data(&self) -> Result<(), Refusal>
        ensures { number_in result ≡ cond (sequel_type (type_number self.now.chunk_type)) 0 (refuse (wrong_data (type_number self.now.chunk_type) (length self.now.section.now)) 18) }
    {
        let wrong = match self.chunk_type {
            ChunkType::Void => !self.section.is_empty(),
            ChunkType::Sequel => false,
            _ => self.section.len() < 4,
        };
        if wrong {
            return Err(Refusal::Data);
        }
        Ok(())
    }

    // Check 19, which a Void chunk and a sequel pass by.
    pub(crate) fn check_match_bits(&self, match_bits: u8) -> Result<(), Refusal>
        ensures { (v : Configuration) → v.match ≡ match_bits
            → number_in result ≡ cond (sequel_type (type_number self.now.chunk_type)) 0 (refuse (mismatched (chunk_as self.now) v) 19) }
    {
        match self.chunk_type {
            ChunkType::Void | ChunkType::Sequel => Ok(()),
            _ if octet(self.section, 0) / 16 % 4 != match_bits => Err(Refusal::MatchBits),
            _ => Ok(()),
        }
    }

    // How many samples of a wave or frame, from the first, only move the mirrors and are never lit: a frame has one.
    pub(crate) fn unlit_samples(&self) -> usize
        ensures { result ≡ start_samples (type_number self.now.chunk_type) }
    {
        match self.chunk_type {
            ChunkType::Frame => 1,
            _ => 0,
        }
    }

    // The Duration in microseconds.
    pub(crate) fn duration(&self) -> u64
        ensures { (result ≡ duration (chunk_as self.now)) × (result < 2 ^ 24) }
    {
        u64::from(u32::from_be_bytes([
            0,
            octet(self.section, 1),
            octet(self.section, 2),
            octet(self.section, 3),
        ]))
    }

    // The samples or levels: what stands after the header.
    pub(crate) fn body(&self) -> &'a [u8]
        ensures value { result.now ≡ body (chunk_as self.now) }
        ensures shorter { length result.now ≤ length self.now.section.now }
    {
        self.section.get(4..).unwrap_or(&[])
    }
}

// Checks 20 and 22 for a wave or frame with so many octets of samples: its points.
#[tactic(auto, unfolding(crate::specs::Checks::draw_number))]
pub(crate) fn count_points(
    chunk_type: ChunkType,
    size: u8,
    octets: usize,
    rows: usize,
) -> Result<usize, Refusal>
    requires { octets ≤ most_octets }
    ensures number { number_in result ≡ draw_number (type_number chunk_type) (octets_of size) octets rows }
    ensures points { IfOk result (λ points. points ≡ points_for (samples_of (octets_of size) octets)) }
{
    let samples = tags::rows::samples(size, octets);
    let few = match chunk_type {
        ChunkType::Wave => samples < 20,
        ChunkType::Frame => samples == 1,
        _ => false,
    };
    if few || !tags::rows::whole(size, octets) {
        return Err(Refusal::Samples);
    }
    let points = tags::rows::points(samples);
    if rows < points * ROW {
        return Err(Refusal::Room);
    }
    Ok(points)
}

// Checks 21 and 22 for so many levels.
#[tactic(auto, unfolding(crate::specs::Checks::dim_number))]
pub(crate) fn check_levels(dimmer: Dimmer, octets: usize, levels: usize) -> Result<(), Refusal>
    ensures { number_in result ≡ dim_number (mapping_of dimmer) octets levels }
{
    if !dimmer.fits(octets) {
        return Err(Refusal::Levels);
    }
    if levels < PLACE_COUNT {
        return Err(Refusal::Room);
    }
    Ok(())
}
