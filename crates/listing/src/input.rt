// The listing's input: a reader, and the octets that it gave and that are not listed yet, in a place with room for them.
ghost use Rattle.std.specs.Prelude.{◌≡◌, [], ◌++◌, ◌<◌, ◌≤◌, List, ℕ, length, drop, Ok, IfOk, OnErr};
ghost use Rattle.std.specs.Io.KnownBytes.{Keeps, IsAtEnd};
ghost use Rattle.receiver.specs.Stream.{entry_of};
ghost use Rattle.lines.specs.Reading.{largest, counted_of, StandsFirst};
ghost use Rattle.lines.specs.declared.reading.Next.TheVariants.{End};
ghost use Rattle.listing.specs.Counting.{Counted};

use lines::reading;
use lines::reading::Next;
use std::io;
use std::io::Read;

// How many octets may wait.
const ROOM: usize = 131072;

// What waits lies from one place to another. It is an array, so that a listing takes no memory that might not be there.
#[derive(Drop)]
pub(crate) struct Input<R> {
    from: R,
    octets: [u8; ROOM],
    start: usize,
    end: usize,
    ghost ordered: { start ≤ end },
    ghost within: { end ≤ 131072 },
    ghost sized: { length octets ≡ 131072 },
}

impl<R: Read> Input<R> {
    ghost use Rattle.listing.specs.Waiting.{input_room, waiting_in, unlisted, Grown};

    // An input of which nothing is read.
    pub(crate) fn new(from: R) -> Self
        ensures from { result.from ≡ from }
        ensures waiting { waiting_in result ≡ [] }
    {
        Input {
            from,
            octets: [0; ROOM],
            start: 0,
            end: 0,
        }
    }

    pub(crate) fn waiting(&self) -> &[u8]
        ensures { result.now ≡ waiting_in self.now }
    {
        &self.octets[self.start..self.end]
    }

    // Lets octets go from the front of what waits.
    pub(crate) fn consume(&mut self, count: usize)
        requires { count ≤ length (waiting_in self.old) }
        ensures waiting { waiting_in self.new ≡ drop count (waiting_in self.old) }
        ensures from { self.new.from ≡ self.old.from }
    {
        self.start += count;
    }

    // Lets all go that waits.
    fn clear(&mut self)
        ensures waiting { waiting_in self.new ≡ [] }
        ensures from { self.new.from ≡ self.old.from }
    {
        self.start = self.end;
    }

    // Moves what waits to the front of its place, where it does not lie there: once a message, however many reads it takes.
    fn to_front(&mut self)
        ensures start { self.new.start ≡ 0 }
        ensures waiting { waiting_in self.new ≡ waiting_in self.old }
        ensures from { self.new.from ≡ self.old.from }
    {
        if self.start > 0 {
            self.octets.copy_within(self.start..self.end, 0);
            self.end -= self.start;
            self.start = 0;
        }
    }

    // One read, behind what waits. Whether any octet came.
    fn read_more(&mut self) -> io::Result<bool>
        requires { length (waiting_in self.old) < input_room }
        ensures { Grown R.remaining self.old result self.new }
    {
        self.to_front();
        let more = self.from.read(&mut self.octets[self.end..])?;
        self.end += more;
        Ok(more > 0)
    }

    // Reads on until a whole message stands at the front of what waits, or none can.
    pub(crate) fn read_message(&mut self) -> io::Result<Next>
        ensures keeps { Keeps (unlisted R.remaining self.old) (unlisted R.remaining self.new) }
        ensures next { IfOk result (λ next. StandsFirst next (waiting_in self.new)) }
        ensures end { result ≡ Ok End → IsAtEnd (R.remaining self.new.from) }
        ensures err { OnErr result (entry_of (waiting_in self.new) ≡ 0) }
    {
        loop {
            let next = reading::front(self.waiting());
            if next != Next::End || !self.read_more()? {
                return Ok(next);
            }
        }
    }

    // Counts what waits, and the octets to the end of the input behind that, as far as 64 bits count. A read that fails ends it too.
    pub(crate) fn count_rest(&mut self) -> (u64, io::Result<()>)
        ensures { Counted (R.remaining self.old.from) (R.remaining self.new.from) (length (waiting_in self.old)) result.0 result.1 }
    {
        let before = self.waiting().len();
        let mut count = before as u64;
        loop {
            self.clear();
            let came = match self.read_more() {
                Ok(came) => came,
                Err(e) => return (count, Err(e)),
            };
            count = reading::counted(count, self.waiting().len());
            if reading::counted_all(count, !came) {
                return (count, Ok(()));
            }
        }
    }

    // The reader. What waits is let go.
    pub(crate) fn finish(self) -> R
        ensures { result ≡ self.from }
    {
        let Input {
            from,
            octets: _,
            start: _,
            end: _,
        } = self;
        from
    }
}
