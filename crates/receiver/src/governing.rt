// What governs a message: what it brings itself, or what its channel holds.
ghost use Rattle.std.specs.Prelude.{◌≡◌, ◌<◌, true, List, ℕ, IfOk};
ghost use Rattle.tags.specs.Kept.{sizes_fit, sample_in, mapping_in};
ghost use Rattle.tags.specs.Dictionary.{dictionary_number, dictionary_sample};
ghost use Rattle.tags.specs.Dimmer.{dimmer_number, dimmer_mapping};
ghost use Rattle.tags.specs.Refusal as tags_numbers;
ghost use Rattle.tags.specs.Layout.{dimmer_mapped};
ghost use Rattle.tags.specs.DimmerView.{mapped_in};
ghost use Rattle.receiver.specs.Governing.{meant, routed_to};
ghost use Rattle.receiver.specs.Modes.{channel_count};
ghost use Rattle.receiver.specs.Checks.{routing_number, route_number, governs};
ghost use Rattle.receiver.specs.Record.{record_in, config_in, mode_in, area_in, channels_of, consistent_at, consistent_up_to};
ghost use Rattle.receiver.specs.Refusal.{number_in};
ghost use Rattle.receiver.specs.Kinds.{state_of};

use super::ChannelId;
use super::channels::{AREAS, COLOURS, MATCHES, SIZES};
use super::incoming::{Message, Routing};
use super::modes::{Mode, mode_of};
use super::record::RECORD;
use super::refusal::Refusal;
use tags::Dimmer;
use tags::kept::{AREA, keep_dimmer, keep_layout};

// A channel's mode, none where it is closed, its match bits, the tag layer's two sizes, and the area that the tag layer reads. It is filled in
// place, since handing it back by value copies the area. The two sizes stand apart, as the tag layer's public calls take them.
#[derive(Clone, Copy)]
pub struct Governing {
    pub mode: Option<Mode>,
    pub match_bits: u8,
    pub size: u8,
    pub colours: u8,
    pub area: [u8; AREA],
    ghost sound: { consistent_at (record { state = state_of mode; match_bits = match_bits; size = size; colours = colours }) ≡ true },
}

impl Governing {
    ghost use Rattle.receiver.specs.Views.{ReadAs, config_of, meaning};

    #[tactic(auto, unfolding(crate::specs::Record::consistent_at, tags::specs::Kept::sizes_fit))]
    pub(crate) fn closed() -> Self
        ensures { config_of result ≡ record { state = 0; match_bits = 0; size = 0; colours = 0 } }
    {
        Governing {
            mode: None,
            match_bits: 0,
            size: 0,
            colours: 0,
            area: [0; AREA],
        }
    }

    // The number of its mode; 0 where it is closed.
    pub(crate) fn mode_number(&self) -> u8
        ensures { result ≡ mode_in (config_of self.now).state }
    {
        self.mode.map_or(0, |mode| mode as u8)
    }

    // Checks 6 to 14 of a message with Routing, or what the channel of another holds.
    #[tactic(auto, using(crate::proofs::GoverningLaws::governing_laws))]
    pub(crate) fn find(&mut self, channels: &[u8; RECORD], message: &Message) -> Result<(), Refusal>
        requires { consistent_up_to channels.now channel_count ≡ true }
        ensures number { (m : List ℕ) → ReadAs m message.now → number_in result ≡ route_number m }
        ensures governs { (m meters gathered : List ℕ) → ReadAs m message.now → number_in result ≡ 0
            → meaning self.new ≡ governs m (channels_of (record_in channels.now meters gathered)) }
    {
        match message.routing {
            Some(routing) => self.route(&routing),
            None => {
                self.read(channels, message.channel);
                Ok(())
            }
        }
    }

    // What a channel holds.
    #[tactic(auto, using(tags::specs::ChoiceLaws::and_left), unfolding(crate::specs::Record::consistent_at))]
    fn read(&mut self, channels: &[u8; RECORD], channel: ChannelId)
        requires few_channels { channel.0 < channel_count }
        requires sound { consistent_at (config_in channels.now channel.0) ≡ true }
        ensures config { config_of self.new ≡ config_in channels.now channel.0 }
        ensures area { self.new.area ≡ area_in channels.now channel.0 }
    {
        let c = usize::from(channel.0);
        let place = AREAS + c * AREA;
        self.mode = mode_of(channels[c]);
        self.match_bits = channels[MATCHES + c];
        self.size = channels[SIZES + c];
        self.colours = channels[COLOURS + c];
        self.area.copy_from_slice(&channels[place..place + AREA]);
    }

    // What Routing brings, by checks 6 to 14.
    #[tactic(auto, using(crate::proofs::RouteLaws::routing_laws), unfolding(crate::specs::Checks::routing_number, crate::specs::Checks::tags_number, tags::specs::Kept::sizes_fit))]
    fn route(&mut self, routing: &Routing) -> Result<(), Refusal>
        ensures number { number_in result ≡ routing_number routing.now.mode routing.now.service.0 routing.now.tags.now }
        ensures governs { number_in result ≡ 0
            → meaning self.new ≡ meant (routed_to routing.now.mode routing.now.service.0 routing.now.match_bits routing.now.tags.now) }
    {
        let mode = Mode::try_from(routing.mode)?;
        if !mode.takes(routing.service) {
            return Err(Refusal::Service);
        }
        let (size, colours) = match mode {
            Mode::Void => (0, 0),
            Mode::Wave | Mode::Frame => keep_dictionary(mode as u8, routing.tags, &mut self.area)?,
            Mode::Effects | Mode::Universe => (keep_mapping(routing.tags, &mut self.area)?, 0),
        };
        self.mode = Some(mode);
        self.match_bits = routing.match_bits;
        self.size = size;
        self.colours = colours;
        Ok(())
    }
}

// What a dictionary says, by checks 8 to 12, kept in an area: the octets and colours of a sample. It stays a call, as keep_mapping does, so that
// what it takes of the stack is free again where a message is drawn. That sizes fit stands at each of the three calls: two numbers, one, and a
// struct that C has.
#[inline(never)]
#[tactic(auto, using(crate::proofs::RouteLaws::keeping_laws))]
fn keep_dictionary(
    mode: u8,
    tags: &[u8],
    area: &mut [u8; AREA],
) -> Result<(u8, u8), tags::refusal::Refusal>
    ensures number { tags_numbers.number_in result ≡ dictionary_number mode tags.now }
    ensures kept { IfOk result (λ sizes. sample_in sizes.0 sizes.1 area.new ≡ dictionary_sample mode tags.now) }
    ensures fits { IfOk result (λ sizes. sizes_fit sizes.0 sizes.1 ≡ true) }
{
    let layout = tags::dictionary::read(mode, tags)?;
    keep_layout(layout, area);
    Ok((layout.width, layout.colours))
}

// What dimmer tags say, by checks 13 and 14, kept in an area: how many subsets.
#[inline(never)]
#[tactic(auto, using(crate::proofs::RouteLaws::keeping_laws))]
fn keep_mapping(tags: &[u8], area: &mut [u8; AREA]) -> Result<u8, tags::refusal::Refusal>
    ensures number { tags_numbers.number_in result ≡ dimmer_number tags.now }
    ensures kept { IfOk result (λ size. mapping_in size area.new ≡ dimmer_mapping tags.now) }
    ensures fits { IfOk result (λ size. sizes_fit size 0 ≡ true) }
{
    let dimmer = read_dimmer(tags)?;
    keep_dimmer(dimmer, area);
    Ok(dimmer.count)
}

// What dimmer tags say, by checks 13 and 14.
fn read_dimmer(tags: &[u8]) -> Result<Dimmer, tags::refusal::Refusal>
    ensures read { mapped_in result ≡ dimmer_mapped tags.now }
    ensures sizes { IfOk result (λ dimmer. sizes_fit dimmer.count 0 ≡ true) }
{
    tags::dimming::read(tags)
}
