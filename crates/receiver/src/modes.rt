// Service modes, and the state of a channel that says its mode. What the type of a chunk asks of a mode stands in work.rt.
ghost use Rattle.std.specs.Prelude.{◌≡◌, ◌+◌, true};
ghost use Rattle.receiver.specs.Modes.{known_mode, service_fits};
ghost use Rattle.receiver.specs.Record.{mode_in};
ghost use Rattle.receiver.specs.Kinds.{mode_number, state_of, ReadsMode};

use super::ServiceId;
use super::refusal::Refusal;

// The service modes that there are.
#[derive(Clone, Copy, Debug, PartialEq, Eq)]
pub enum Mode {
    Void = 0,
    Wave = 1,
    Frame = 2,
    Effects = 4,
    Universe = 6,
}

// The state of a closed channel.
pub(crate) const CLOSED: u8 = 0;

// The state of a channel: a mode plus 1 where it is open in that mode. A number: C hosts keep the record as octets.
pub(crate) fn state_of(mode: Option<Mode>) -> u8
    ensures { result ≡ state_of mode }
{
    mode.map_or(CLOSED, |mode| mode as u8 + 1)
}

// The mode of a channel of that state.
pub(crate) fn mode_of(state: u8) -> Option<Mode>
    requires { known_mode (mode_in state) ≡ true }
    ensures { state_of result ≡ state }
{
    state
        .checked_sub(1)
        .and_then(|mode| Mode::try_from(mode).ok())
}

// Check 6.
impl TryFrom<u8> for Mode {
    type Error = Refusal;

    ghost try_from_gives = { ReadsMode };

    fn try_from(number: u8) -> Result<Self, Refusal> {
        match number {
            0 => Ok(Mode::Void),
            1 => Ok(Mode::Wave),
            2 => Ok(Mode::Frame),
            4 => Ok(Mode::Effects),
            6 => Ok(Mode::Universe),
            _ => Err(Refusal::Mode),
        }
    }
}

impl Mode {
    // Check 7: 1 is the laser, 2 is DMX, and 0 is the default of each mode. Numbers: an enum of the three would be read here alone.
    pub(crate) fn takes(self, service: ServiceId) -> bool
        ensures { result ≡ service_fits (mode_number self) service.0 }
    {
        match service.0 {
            0 => true,
            1 => self != Mode::Universe,
            2 => matches!(self, Mode::Void | Mode::Universe),
            _ => false,
        }
    }
}
