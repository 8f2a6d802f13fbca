// A set of configuring messages in one slice (C-14): each is offered to what the one before left, and at the first that is refused the
// record is put back as it was. Check 1 is tried before the first alone, and no message of type 0x00 writes to a slice or to a meter.
ghost use Rattle.std.specs.Prelude.{◌≡◌, true};
ghost use Rattle.receiver.specs.Record.{record_in, consistent};
ghost use Rattle.receiver.specs.Contract.{set_outcome, Patched};
ghost use Rattle.receiver.specs.Sets.{set_reply};
ghost use Rattle.receiver.specs.Refusal.{refusal_number, number_in};
ghost use Rattle.receiver.specs.Steps.{MemberOf};

use super::chunk::ChunkType;
use super::header::{check_front, octet};
use super::message::answer;
use super::place::mewkoast_patch_on;
use super::record::{GATHERED, METERS, RECORD, is_sound};
use super::refusal::Refusal;
use super::stream::Parts;
use super::{Receiver, SetOutcome, SetReply};

impl SetReply {
    // To a set that is refused at a place.
    pub(crate) fn refused(place: usize, refusal: Refusal) -> Self
        ensures { result ≡ set_reply place (refusal_number refusal) }
    {
        SetReply {
            place,
            number: refusal.number(),
        }
    }
}

// One message of a set, offered to a record that check 1 passes. One of type 0x00 writes to no slice and to no meter, so none is lent. The
// arrays of the record are lent one by one, as a C host lends them.
fn configure(
    channels: &mut [u8; RECORD],
    meters: &[u64; METERS],
    gathered: &mut [u32; GATHERED],
    octets: &[u8],
) -> Result<(), Refusal>
    requires { consistent (record_in channels.old meters.now gathered.old) ≡ true }
    ensures { MemberOf (record_in channels.old meters.now gathered.old) octets.now (number_in result) (record_in channels.new meters.now gathered.new) }
{
    // A number: the octet may be no type.
    if octet(octets, 3) != ChunkType::Void as u8 {
        check_front(octets)?;
        return Err(Refusal::ChunkType);
    }
    let mut sums = *meters;
    answer(
        channels,
        &mut sums,
        gathered,
        octets,
        &mut [],
        &mut [],
        &mut [],
    )?;
    Ok(())
}

// The messages of a set, offered to a record that is lent: all accepted, and it is left as the last one leaves it, or none, and it is left as
// it came. One copy of its channels is made for that; the meters are only read.
pub(crate) fn offer_each(
    channels: &mut [u8; RECORD],
    meters: &[u64; METERS],
    gathered: &mut [u32; GATHERED],
    octets: &[u8],
) -> SetReply
    ensures { Patched (record_in channels.old meters.now gathered.old) octets.now (set_outcome (record_in channels.new meters.now gathered.new) result) }
{
    if !is_sound(channels, meters) {
        return SetReply::refused(0, Refusal::Record);
    }
    let before = *channels;
    let frame = *gathered;
    // Counted by hand: the count behind the last is asked for too.
    let mut place = 0;
    for part in Parts::of(octets) {
        if let Err(refusal) = configure(channels, meters, gathered, part) {
            *channels = before;
            *gathered = frame;
            return SetReply::refused(place, refusal);
        }
        place += 1;
    }
    SetReply { place, number: 0 }
}

impl Receiver {
    // The messages of a set, end to end in one slice, by the call in place: all accepted or none.
    pub fn patch(self, octets: &[u8]) -> SetOutcome
        ensures { Patched self octets.now result }
    {
        let mut receiver = self;
        let reply = mewkoast_patch_on(
            &mut receiver.channels,
            &receiver.meters,
            &mut receiver.gathered,
            octets,
        );
        SetOutcome { receiver, reply }
    }
}
