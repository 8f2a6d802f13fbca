// The receiver, with the slices that are lent to it for the whole run.
ghost use Rattle.std.specs.Prelude.{◌≡◌};
ghost use Rattle.receiver.specs.Slices.{lent, lengths};
ghost use Rattle.receiver.specs.Meters.{sums};
ghost use Rattle.receiver.specs.Contract.{outcome, Started, Answered, readings_of};
ghost use Rattle.receiver.specs.declared.Reply.{Reply};
ghost use Rattle.listing.specs.Hosting.{slices_of};

use receiver::place::{
    CHANNEL_OCTETS, GATHERED_COUNT, METER_COUNT, mewkoast_begin_on, mewkoast_offer_on,
    mewkoast_readings_on,
};
use receiver::{Readings, Receiver, Reply};

// How many numbers are lent for the rows of a message.
const NUMBERS: usize = 12000;

// How many octets are lent for its levels.
const LEVELS: usize = 1024;

// How many octets are lent for a frame that comes in fragments, one slice for the whole run.
const ASSEMBLY: usize = 65536;

#[derive(Drop)]
pub(crate) struct Host {
    receiver: Receiver,
    rows: [i32; NUMBERS],
    levels: [u8; LEVELS],
    assembly: [u8; ASSEMBLY],
}

impl Host {
    // A receiver with three readings of 0.
    pub(crate) fn start() -> Host
        ensures { (reply : Reply) × Started (sums 0 0 0) (outcome result.receiver reply) }
    {
        let mut host = Host {
            receiver: Receiver {
                meters: [0; METER_COUNT],
                gathered: [0; GATHERED_COUNT],
                channels: [0; CHANNEL_OCTETS],
            },
            rows: [0; NUMBERS],
            levels: [0; LEVELS],
            assembly: [0; ASSEMBLY],
        };
        let receiver = &mut host.receiver;
        mewkoast_begin_on(
            &mut receiver.channels,
            &mut receiver.meters,
            &mut receiver.gathered,
            0,
            0,
            0,
        );
        host
    }

    // Offers a message.
    pub(crate) fn offer(&mut self, message: &[u8]) -> Reply
        ensures lent { lengths (slices_of self.old) ≡ lent 12000 1024 65536 }
        ensures answered { Answered self.old.receiver message.now (slices_of self.old) (outcome self.new.receiver result) (slices_of self.new) }
    {
        let receiver = &mut self.receiver;
        mewkoast_offer_on(
            &mut receiver.channels,
            &mut receiver.meters,
            &mut receiver.gathered,
            message,
            &mut self.rows,
            &mut self.levels,
            &mut self.assembly,
        )
    }

    pub(crate) fn readings(&self) -> Readings
        ensures { result ≡ readings_of self.now.receiver }
    {
        mewkoast_readings_on(&self.receiver.meters)
    }
}
