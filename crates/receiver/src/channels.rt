// What the record holds of each channel, in one array of octets: the states of all channels, their match bits, their two sizes, so that
// check 1 reads octets side by side, and then an area for each, which the tag layer reads.
ghost use Rattle.std.specs.Prelude.{◌≡◌, ◌<◌, length, is_some};
ghost use Rattle.tags.specs.Kept.{area_size};
ghost use Rattle.receiver.specs.Modes.{channel_count};
ghost use Rattle.receiver.specs.Steps.{stored_in, closed_by, settled_in};
ghost use Rattle.receiver.specs.Refusal.{number_in};
ghost use Rattle.receiver.specs.Views.{config_of};

use super::draw::Counts;
use super::governing::Governing;
use super::incoming::Message;
use super::modes::{CLOSED, state_of};
use super::record::RECORD;
use super::refusal::Refusal;
use tags::kept::AREA;

// Channels of a receiver.
pub(crate) const CHANNELS: usize = 64;

// Where the match bits, the sizes and the areas start.
pub(crate) const MATCHES: usize = CHANNELS;

pub(crate) const SIZES: usize = 2 * CHANNELS;

pub(crate) const COLOURS: usize = 3 * CHANNELS;

pub(crate) const AREAS: usize = 4 * CHANNELS;

impl Governing {
    // Channel c with what governs it, closed where the message closes it, and the area.
    fn store(&self, channels: &mut [u8; RECORD], c: usize, closing: bool)
        requires { c < channel_count }
        ensures { channels.new ≡ stored_in channels.old c (closed_by closing (config_of self.now)) self.now.area }
    {
        channels[c] = if closing { CLOSED } else { state_of(self.mode) };
        channels[MATCHES + c] = self.match_bits;
        channels[SIZES + c] = self.size;
        channels[COLOURS + c] = self.colours;
        let start = AREAS + c * AREA;
        channels[start..start + AREA].copy_from_slice(&self.area);
    }

    // What the channels hold after the message that it governs.
    #[tactic(auto, unfolding(crate::specs::Steps::settled_in))]
    pub(crate) fn settle(
        &self,
        channels: &mut [u8; RECORD],
        message: &Message,
        answer: &Result<Counts, Refusal>,
    )
        ensures whole { length self.now.area ≡ area_size }
        ensures settled { channels.new ≡ settled_in (number_in answer.now) (is_some message.now.routing) message.now.close message.now.channel.0 (config_of self.now) self.now.area channels.old }
    {
        let c = usize::from(message.channel.0);
        match answer {
            Ok(_) if message.routing.is_some() => self.store(channels, c, message.close),
            Ok(_) if message.close => channels[c] = CLOSED,
            Err(Refusal::MatchBits) => channels[c] = CLOSED,
            _ => {}
        }
    }
}
