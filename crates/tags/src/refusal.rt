// What the tag layer refuses, each under the number of the receiver's checks. specs/Refusal.antt has the numbers.
ghost use Rattle.std.specs.Prelude.{◌≡◌};
ghost use Rattle.tags.specs.Refusal.{refusal_number};

#[derive(Clone, Copy, Debug, PartialEq, Eq)]
pub enum Refusal {
    // The octets of a C host are odd in number or more than TAG_OCTET_LIMIT.
    OctetCount = 5,
    // A C host's mode is not 1 or 2.
    Mode = 6,
    // A tag's group is undefined.
    Undefined = 8,
    // A tag that is refused in this mode or in all: Break, newer hints, 4101 in mode 2, a reserved space value.
    Barred = 9,
    // Precision, prefix or 5000 is misplaced, or a skip passes the end.
    Misplaced = 10,
    // A signal, hint or space modifier repeats, or it is the 9th colour or 33rd octet.
    Repeated = 11,
    // X, Y or every colour is missing.
    Incomplete = 12,
    // A dimmer tag is unknown, out of range or passes the end.
    BadDimmerTag = 13,
    // Dimmer tags mix, overlap, repeat 42, or are the 33rd 43.
    Clash = 14,
}

impl Refusal {
    // A method: at a call, `number()` says which number it is, and `u8::from` would not.
    pub fn number(self) -> u8
        ensures { result ≡ refusal_number self }
    {
        self as u8
    }
}
