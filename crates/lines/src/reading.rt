// The listing's input: messages end to end, read one at a time.
ghost use Rattle.std.specs.Prelude.{◌≡◌, ◌-◌, ◌≤◌, ◌<◌, ◌⊎◌, ◌++◌, max, length, IfSome, IfOk, OnOk, OnErr, MatchOption, Ok, vec_len, vec_capacity};
ghost use Rattle.std.specs.Io.KnownBytes.{Consumes};
ghost use Rattle.receiver.specs.Message.{total_size};
ghost use Rattle.receiver.specs.Stream.{entry_of};
ghost use Rattle.lines.specs.Reading.{most, Gained, Stands, StandsFirst, moved, stops, counted_of, counted_all, goes_on, lists_on};
ghost use Rattle.lines.specs.declared.reading.Next.TheVariants.{End};

use super::text::copy;
use receiver::stream;
use std::io;
use std::io::BufRead;

// More octets than any message has.
pub const MOST: usize = 65536;

// What stands at the front of the input: a whole message, octets that are cut whatever follows, or fewer than a message has and no more
// behind them.
#[derive(Clone, Copy, Debug, PartialEq, Eq)]
pub enum Next {
    Message,
    Cut,
    End,
}

// The unread octets of a buffer, those from one place up to another; the size of the message at their front, 0 where none is whole; and
// whether the last read gave nothing. Public, and so it stays, for those who keep a buffer of their own.
#[derive(Clone, Copy)]
pub struct Unread {
    pub from: usize,
    pub end: usize,
    pub size: usize,
    pub ended: bool,
}

// What a read leaves in such a buffer: the place after its octets, and whether it gave none.
#[derive(Clone, Copy)]
pub struct More {
    pub end: usize,
    pub ended: bool,
}

// Reads on until there are so many octets, or no more come. None is lost where a read fails.
fn read_up_to<R: BufRead>(input: &mut R, size: usize, octets: &mut Vec<u8>) -> io::Result<()>
    requires { size ≤ vec_capacity octets.old }
    ensures room { vec_capacity octets.old ≤ vec_capacity octets.new }
    ensures grown { Gained (R.remaining input.old) (R.remaining input.new) octets.old.items octets.new.items }
    ensures bound { vec_len octets.new ≤ max size (vec_len octets.old) }
    ensures ok { OnOk result ((size ≤ vec_len octets.new) ⊎ IfSome (R.remaining input.old) (λ xs. octets.new.items ≡ octets.old.items ++ xs)) }
    ensures err { OnErr result (vec_len octets.new < size) }
{
    while octets.len() < size {
        let more = input.fill_buf()?;
        let count = more.len().min(size - octets.len());
        if count == 0 {
            return Ok(());
        }
        octets.extend_from_slice(&more[..count])?;
        input.consume(count);
    }
    Ok(())
}

// The size that octets claim, where both octets of it are there.
fn claimed(octets: &[u8]) -> Option<usize>
    ensures { MatchOption result (length octets.now < 2) (λ size. (2 ≤ length octets.now) × (size ≡ total_size octets.now)) }
{
    let [high, low, ..] = octets else {
        return None;
    };
    Some(usize::from(u16::from_be_bytes([*high, *low])))
}

// What stands at the front of octets that were read, as far as they tell: more may follow.
pub fn front(octets: &[u8]) -> Next
    ensures { StandsFirst result octets.now }
{
    let Some(size) = claimed(octets) else {
        return Next::End;
    };
    if stream::entry(octets) > 0 {
        Next::Message
    } else if octets.len() < size {
        Next::End
    } else {
        Next::Cut
    }
}

// Reads the next message, in place of the one before. What is there of one that is not whole stays in its place.
pub fn read_message<R: BufRead>(input: &mut R, message: &mut Vec<u8>) -> io::Result<Next>
    requires { most ≤ vec_capacity message.old }
    ensures room { most ≤ vec_capacity message.new }
    ensures read { Consumes (R.remaining input.old) (R.remaining input.new) message.new.items }
    ensures next { IfOk result (λ next. Stands next message.new.items) }
    ensures end { result ≡ Ok End → IfSome (R.remaining input.old) (λ all. all ≡ message.new.items) }
    ensures err { OnErr result (entry_of message.new.items ≡ 0) }
{
    message.clear();
    read_up_to(input, 2, message)?;
    let Some(size) = claimed(message.as_slice()) else {
        return Ok(Next::End);
    };
    read_up_to(input, size, message)?;
    if stream::entry(message.as_slice()) > 0 {
        Ok(Next::Message)
    } else if message.len() < size {
        Ok(Next::End)
    } else {
        Ok(Next::Cut)
    }
}

// The functions from here on are public, take sizes and places as numbers, and cannot fail: so they stay, as the definitions have them.

// Whether the listing goes on to the next message, after so many, with a message of this size at the front of the input.
pub fn goes_on(size: usize, messages: u64) -> bool
    ensures { result ≡ goes_on size messages }
{
    0 < size && messages < u64::MAX
}

// Whether the listing goes on to the next message, after so many.
pub fn lists_on(next: Next, messages: u64) -> bool
    ensures { result ≡ lists_on next messages }
{
    goes_on(usize::from(next == Next::Message), messages)
}

// The count of octets from a cut on, after a read gave so many more.
pub fn counted(before: u64, got: usize) -> u64
    ensures { result ≡ counted_of before got }
{
    before.saturating_add(got as u64)
}

// Whether the octets are counted to the end of the input.
pub fn counted_all(count: u64, ended: bool) -> bool
    ensures { result ≡ counted_all count ended }
{
    ended || count == u64::MAX
}

// Whether no more is to be read, with count octets unread and a message of this size at their front, 0 where none is whole.
pub fn stops(size: usize, count: usize, ended: bool) -> bool
    ensures { result ≡ stops size count ended }
{
    0 < size || ended || MOST <= count
}

// Moves the octets of a part to the front of the buffer, by way of spare, and gives their count.
pub fn to_front(from: usize, end: usize, octets: &mut [u8], spare: &mut [u8]) -> usize
    requires from_le_end { from ≤ end }
    requires end_in_bounds { end ≤ length octets.old }
    requires from_in_bounds { end - from ≤ length spare.old }
    ensures value { result ≡ end - from }
    ensures octets_after { octets.new ≡ moved from end octets.old }
{
    let count = copy(&octets[from..end], spare);
    copy(&spare[0..count], octets)
}

#[cfg(test)]
mod tests {
    use super::*;
    use std::test::Fail;

    // A message to a closed channel, and an octet of the next.
    const OCTETS: [u8; 9] = [0, 8, 0x81, 0, 0, 0, 0, 0, 0];

    #[test]
    fn reads_a_message_and_an_octet(rt: HostRuntime) -> Result<(), Fail> {
        let mut input = OCTETS.as_slice();
        let mut message = Vec::with_capacity(rt.alloc(), MOST)?;
        assert_eq!(rt; read_message(&mut input, &mut message)?, Next::Message);
        assert_eq!(rt; message.as_slice(), &OCTETS[..8]);
        assert_eq!(rt; read_message(&mut input, &mut message)?, Next::End);
        assert_eq!(rt; message.as_slice(), &OCTETS[8..]);
        Ok(())
    }
}
