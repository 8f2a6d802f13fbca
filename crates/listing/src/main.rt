// The listing program: reads messages end to end from standard input, prints a line for each, and then the meters. The lines, and how a
// message is read, are the crate lines'.
#![tactic(auto)]

mod host;
mod input;
mod output;

ghost use Rattle.std.specs.Prelude.{◌≡◌, [], ℕ, true, false, ◌<◌, Ok, OnOk, MatchResult};
ghost use Rattle.std.specs.Io.KnownBytes.{IsAtEnd};
ghost use Rattle.receiver.specs.Slices.{lent, lengths};
ghost use Rattle.receiver.specs.Meters.{sums};
ghost use Rattle.receiver.specs.Contract.{outcome, Started, Answered};
ghost use Rattle.receiver.specs.Stream.{entry_of};
ghost use Rattle.receiver.specs.declared.Reply.{Reply};
ghost use Rattle.lines.specs.Lines.{reply_line};
ghost use Rattle.lines.specs.Reading.{StandsFirst, goes_on, lists_on};
ghost use Rattle.lines.specs.declared.reading.Next.TheVariants.{End};
ghost use Rattle.listing.specs.Hosting.{slices_of};
ghost use Rattle.listing.specs.Waiting.{waiting_in, unlisted};
ghost use Rattle.listing.specs.Writing.{Stays, Puts};
ghost use Rattle.listing.specs.Progress.{Progress, ListsOn, AllRead, AllListed, Listed};

use host::Host;
use input::Input;
use lines::reading::Next;
use lines::{Line, reading};
use output::Output;
use receiver::stream;
use std::io;
use std::io::{Eprint, Read, Write};

// Offers a message to the host's receiver, and adds the line of the reply.
fn list_message<W: Write, E: Eprint>(message: &[u8], host: &mut Host, out: &mut Output<W, E>)
    ensures lent { lengths (slices_of host.old) ≡ lent 12000 1024 65536 }
    ensures answered { (reply : Reply) × Answered host.old.receiver message.now (slices_of host.old) (outcome host.new.receiver reply) (slices_of host.new) × Puts W.contents out.old (reply_line reply) out.new }
{
    let reply = host.offer(message);
    out.put(Line::Answer(reply));
}

// Lists the messages that stand whole at the front of what waits, each from there. Gives how many are listed then, after so many before.
fn list_waiting<R: Read, W: Write, E: Eprint>(
    input: &mut Input<R>,
    host: &mut Host,
    out: &mut Output<W, E>,
    before: u64,
) -> u64
    ensures on { ListsOn W.contents (unlisted R.remaining input.old) (unlisted R.remaining input.new) out.old out.new host.old.receiver host.new.receiver host.old.assembly host.new.assembly before result }
    ensures some { goes_on (entry_of (waiting_in input.old)) before ≡ true → before < result }
    ensures all { goes_on (entry_of (waiting_in input.new)) result ≡ false }
{
    let mut messages = before;
    let mut size = stream::entry(input.waiting());
    while reading::goes_on(size, messages) {
        list_message(&input.waiting()[..size], host, out);
        input.consume(size);
        messages += 1;
        size = stream::entry(input.waiting());
    }
    messages
}

// Writes the lines out before a read that may wait: where the next message is not there whole.
fn flush_to_wait<R: Read, W: Write, E: Eprint>(input: &Input<R>, out: &mut Output<W, E>)
    ensures put { Puts W.contents out.old [] out.new }
    ensures empty { entry_of (waiting_in input.now) ≡ 0 → OnOk out.new.written (out.new.end ≡ 0) }
    ensures kept { 0 < entry_of (waiting_in input.now) → Stays out.old out.new }
{
    if stream::entry(input.waiting()) == 0 {
        out.flush();
    }
}

// Lists the messages, as far as whole ones come. What is read of the next waits.
fn list_messages<R: Read, W: Write, E: Eprint>(
    input: &mut Input<R>,
    host: &mut Host,
    out: &mut Output<W, E>,
) -> io::Result<Next>
    requires started { (reply : Reply) × Started (sums 0 0 0) (outcome host.old.receiver reply) }
    ensures progress { (count : ℕ) × Progress (unlisted R.remaining input.old) (unlisted R.remaining input.new) (λ text. Puts W.contents out.old text out.new) host.new.receiver host.new.assembly count × MatchResult result (λ next. StandsFirst next (waiting_in input.new) × (lists_on next count ≡ false)) (λ _. entry_of (waiting_in input.new) ≡ 0) }
    ensures end { result ≡ Ok End → IsAtEnd (R.remaining input.new.from) }
{
    let mut messages: u64 = 0;
    let mut next = input.read_message()?;
    while reading::lists_on(next, messages) {
        messages = list_waiting(input, host, out, messages);
        flush_to_wait(input, out);
        next = input.read_message()?;
    }
    Ok(next)
}

// Lists the messages, and counts the octets behind them.
fn list_input<R: Read, W: Write, E: Eprint>(
    input: &mut Input<R>,
    host: &mut Host,
    out: &mut Output<W, E>,
) -> (u64, io::Result<()>)
    requires started { (reply : Reply) × Started (sums 0 0 0) (outcome host.old.receiver reply) }
    ensures { AllRead (unlisted R.remaining input.old) (R.remaining input.new.from) (λ text. Puts W.contents out.old text out.new) host.new.receiver result.0 result.1 }
{
    match list_messages(input, host, out) {
        Ok(Next::End) => (input.waiting().len() as u64, Ok(())),
        Ok(_) => input.count_rest(),
        Err(e) => (input.waiting().len() as u64, Err(e)),
    }
}

// Lists the messages, then what is cut, then the meters, and writes all out.
fn list<R: Read, W: Write, E: Eprint>(
    input: &mut Input<R>,
    out: &mut Output<W, E>,
) -> io::Result<()>
    ensures listed { AllListed (unlisted R.remaining input.old) (R.remaining input.new.from) (λ text. Puts W.contents out.old text out.new) result }
    ensures written { OnOk out.new.written (out.new.end ≡ 0) }
{
    let mut host = Host::start();
    let (cut, read) = list_input(input, &mut host, out);
    if read.is_err() {
        out.tell("listing: standard input cannot be read");
    }
    out.put(Line::Cut(cut));
    out.put(Line::Meters(host.readings()));
    out.flush();
    read
}

// The reader and the writer of a listing, and what has become of the reads and the writes.
#[derive(Drop)]
struct Done<R, W> {
    from: R,
    to: W,
    read: io::Result<()>,
    written: io::Result<()>,
}

// Lists an input.
fn run<R: Read + Drop, W: Write + Drop, E: Eprint>(from: R, to: W, told: &E) -> Done<R, W>
    ensures { Listed (R.remaining from) (R.remaining result.from) (W.contents to) (W.contents result.to) result.read result.written }
{
    let mut input = Input::new(from);
    let mut out = Output::new(to, told);
    let read = list(&mut input, &mut out);
    let (to, written) = out.finish();
    Done {
        from: input.finish(),
        to,
        read,
        written,
    }
}

// A read or a write that fails is told, and leaves the status as it is.
fn main(rt: HostRuntime) {
    let _ = run(rt.stdin(), rt.stdout(), &rt);
}

#[cfg(test)]
mod tests {
    use super::*;
    use std::test::Fail;

    // A message to a closed channel, and an octet of the next.
    const OCTETS: [u8; 9] = [0, 8, 0x81, 0, 0, 0, 0, 0, 0];

    const LISTING: &[u8] = b"0 0 16 0 0\ncut 1\nmeters 0 0 0\n";

    // Gives its octets, and then fails.
    #[derive(Drop)]
    struct Breaks<'a>(&'a [u8]);

    impl Read for Breaks<'_> {
        fn read(&mut self, buf: &mut [u8]) -> io::Result<usize> {
            if self.0.is_empty() {
                return Err(io::ErrorKind::Other.into());
            }
            self.0.read(buf)
        }
    }

    // Takes nothing.
    #[derive(Drop)]
    struct Full;

    impl Write for Full {
        fn write(&mut self, _buf: &[u8]) -> io::Result<usize> {
            Err(io::ErrorKind::StorageFull.into())
        }

        fn flush(&mut self) -> io::Result<()> {
            Ok(())
        }
    }

    #[test]
    fn lists_a_message_and_a_cut(rt: HostRuntime) -> Result<(), Fail> {
        let done = run(OCTETS.as_slice(), Vec::new(rt.alloc()), &rt);
        assert_eq!(rt; done.to.as_slice(), LISTING);
        assert!(rt; done.read.is_ok() && done.written.is_ok());
        Ok(())
    }

    #[test]
    fn ends_where_a_read_fails(rt: HostRuntime) -> Result<(), Fail> {
        let done = run(Breaks(&OCTETS), Vec::new(rt.alloc()), &rt);
        assert_eq!(rt; done.to.as_slice(), LISTING);
        assert!(rt; done.read.is_err());
        Ok(())
    }

    #[test]
    fn reads_on_where_a_write_fails(rt: HostRuntime) -> Result<(), Fail> {
        let done = run(OCTETS.as_slice(), Full, &rt);
        assert!(rt; done.read.is_ok() && done.written.is_err());
        Ok(())
    }
}
