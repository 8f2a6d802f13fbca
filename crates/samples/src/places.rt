// Where each role's octet stands.
ghost use Rattle.std.specs.Prelude.{◌≡◌, ◌<◌, ◌≤◌, cond, get_or, length, ltb, None};
ghost use Rattle.samples.specs.Limits.{octet_limit, row_size};
ghost use Rattle.samples.specs.Roles.{hint_of};
ghost use Rattle.samples.specs.Signals.{Tabled, signal_of, table_size};
ghost use Rattle.samples.specs.Plan.{alone_in, placed_in};

use super::signals::Signal;

// Roles of octets, as specs/Roles.antt numbers them: the first octet of slot s has the role s + FIRST_OCTET, its precision octet s +
// PRECISION_OCTET; the hint's octet is one of two, by its format. Numbers: C hands roles over in a layout, and here they are places of a
// table. crates/tags states some of these and of the slots again, in 8 bits: taken from here, each would be cast there.
const FIRST_OCTET: usize = 1;

const PRECISION_OCTET: usize = 33;

pub const HINT: usize = 65;

pub const HINT_WITH_SHUTTER: usize = 66;

// More than the largest role that a slot or the hint has.
const TABLE: usize = 128;

// The place of the first octet with each role below TABLE, `width` where no octet has it: so one test, `within`, serves every place, those of
// precision octets in a list too.
#[derive(Clone, Copy)]
pub struct Places {
    table: [u8; TABLE],
    width: usize,
}

impl Places {
    // The roles are gone through from the last to the first, so that of several octets with one role the first stays; by an index, which is what
    // the table holds: `enumerate().rev()` gives the same, and its proof has to tell at each turn which octet was given.
    pub fn new(roles: &[u8]) -> Self
        requires { length roles.now ≤ octet_limit }
        ensures table { Tabled result.table roles.now }
        ensures width { result.width ≡ length roles.now }
    {
        let width = roles.len();
        let mut places = Places {
            table: [width as u8; TABLE],
            width,
        };
        for i in (0..width).rev() {
            let role = usize::from(roles[i]);
            if role < TABLE {
                places.table[role] = i as u8;
            }
        }
        places
    }

    // Whether a sample has the place.
    pub fn within(&self, place: u8) -> bool
        ensures { result ≡ ltb place self.now.width }
    {
        usize::from(place) < self.width
    }

    // The signal of a slot.
    pub fn signal(&self, slot: usize) -> Signal
        requires { slot < row_size }
        ensures { result ≡ signal_of self.now.table slot }
    {
        Signal {
            slot: slot as u8,
            first: self.table[slot + FIRST_OCTET],
            second: self.table[slot + PRECISION_OCTET],
        }
    }

    // The same if it has a first octet.
    pub fn alone(&self, slot: usize) -> Option<Signal>
        requires { slot < row_size }
        ensures { result ≡ alone_in self.now.table self.now.width slot }
    {
        let signal = self.signal(slot);
        self.within(signal.first).then_some(signal)
    }

    // The place of the octet with a role.
    pub fn get(&self, role: usize) -> Option<u8>
        requires { role < table_size }
        ensures { result ≡ placed_in self.now.table self.now.width role }
    {
        let place = self.table[role];
        self.within(place).then_some(place)
    }
}
