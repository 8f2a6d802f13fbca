// What refuses a message, each check under its number; specs/Refusal.antt has the numbers.
ghost use Rattle.std.specs.Prelude.{◌≡◌};
ghost use Rattle.receiver.specs.Refusal.{refusal_number};

#[derive(Clone, Copy, Debug, PartialEq, Eq)]
pub enum Refusal {
    // The record breaks the consistency rule.
    Record,
    // The length is below 8, above 65,280, or not Total Size.
    Length,
    // The top bit of octet 2 is 0.
    TopBit,
    // There is no such chunk type.
    ChunkType,
    // The configuration header or words pass the end.
    PastEnd,
    // There is no such mode.
    Mode,
    // The service does not go with the mode.
    Service,
    // The tags are refused by the tag layer, 8 to 14.
    Tags(tags::refusal::Refusal),
    // Another open channel has the mode that one alone may have.
    Held,
    // The channel is closed.
    Closed,
    // The type does not go with the mode.
    Mismatch,
    // A Void chunk has data, or another has under 4 octets.
    Data,
    // SCM differs from SDM.
    MatchBits,
    // Samples are not whole, or too few.
    Samples,
    // The levels are not those of the mapping.
    Levels,
    // The rows or levels that are lent are too short.
    Room,
    // A meter would pass its limit.
    Meter,
    // A sequel of no frame that is gathered on its channel.
    Stray,
    // A sequel with another timestamp than the next.
    Timestamp,
    // The assembly slice is too short, or the frame too long.
    Assembly,
}

impl Refusal {
    // A method and no From: refusal.number() says what it is, where u8::from(refusal) would not.
    pub fn number(self) -> u8
        ensures { result ≡ refusal_number self }
    {
        match self {
            Refusal::Record => 1,
            Refusal::Length => 2,
            Refusal::TopBit => 3,
            Refusal::ChunkType => 4,
            Refusal::PastEnd => 5,
            Refusal::Mode => 6,
            Refusal::Service => 7,
            Refusal::Tags(refusal) => refusal.number(),
            Refusal::Held => 15,
            Refusal::Closed => 16,
            Refusal::Mismatch => 17,
            Refusal::Data => 18,
            Refusal::MatchBits => 19,
            Refusal::Samples => 20,
            Refusal::Levels => 21,
            Refusal::Room => 22,
            Refusal::Meter => 23,
            Refusal::Stray => 24,
            Refusal::Timestamp => 25,
            Refusal::Assembly => 26,
        }
    }
}

impl From<tags::refusal::Refusal> for Refusal {
    ghost from_gives = { λ refusal result. result ≡ Rattle.receiver.specs.Refusal.of_tags refusal };

    fn from(refusal: tags::refusal::Refusal) -> Self {
        Refusal::Tags(refusal)
    }
}
