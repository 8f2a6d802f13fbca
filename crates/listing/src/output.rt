// Writing to standard output: lines are collected in a place with room for many, and written out where it is full, before a read that may
// wait, and at the end.
ghost use Rattle.std.specs.Prelude.{◌≡◌, [], ◌+◌, ◌≤◌, length, Ok, OnOk};
ghost use Rattle.lines.specs.Text.{room, place_for, Added};
ghost use Rattle.lines.specs.Lines.{line_put};

use lines::Line;
use std::io;
use std::io::{Eprint, Write};

// How many octets of lines are collected.
const ROOM: usize = 65536;

// The lines collected for the output, whether all that came before them was written, and where a failure is told. They lie in an array, so
// that a listing takes no memory that might not be there.
#[derive(Drop)]
pub(crate) struct Output<'a, W, E> {
    to: W,
    text: [u8; ROOM],
    end: usize,
    written: io::Result<()>,
    told: &'a E,
    ghost within: { end ≤ 65536 },
}

// Adds a line at a place: where it is put into a slice, it takes a third of what a formatter takes.
fn add(line: Line, at: usize, text: &mut [u8]) -> usize
    requires { at + room ≤ length text.old }
    ensures { Added (line_put line) at text.old result text.new }
{
    match line {
        Line::Answer(reply) => lines::reply_line(reply, at, text),
        Line::Cut(count) => lines::cut_line(count, at, text),
        Line::Meters(readings) => lines::meters_line(readings, at, text),
    }
}

impl<'a, W: Write, E: Eprint> Output<'a, W, E> {
    ghost use Rattle.listing.specs.Writing.{output_room, collected, Stays, Puts};

    // An output of which nothing is collected.
    pub(crate) fn new(to: W, told: &'a E) -> Output<'a, W, E>
        ensures to { result.to ≡ to }
        ensures collected { collected result ≡ [] }
        ensures written { result.written ≡ Ok tt }
    {
        Output {
            to,
            text: [0; ROOM],
            end: 0,
            written: Ok(()),
            told,
        }
    }

    // Writes the lines out that leave too little room for another, so that no line is split over two writes.
    fn make_room(&mut self)
        ensures put { Puts W.contents self.old [] self.new }
        ensures place { OnOk self.new.written (self.new.end ≡ place_for self.old.end output_room) }
        ensures room { OnOk self.new.written (self.new.end + room ≤ output_room) }
        ensures kept { self.old.end + room ≤ output_room → Stays self.old self.new }
    {
        if self.text.len() - self.end < lines::ROOM {
            self.flush();
        }
    }

    // Adds a line. It stays collected where there is room.
    pub(crate) fn put(&mut self, line: Line)
        ensures put { Puts W.contents self.old (line_put line) self.new }
        ensures kept { self.old.end + room ≤ output_room → self.new.to ≡ self.old.to }
    {
        self.make_room();
        if self.written.is_ok() {
            self.end = add(line, self.end, &mut self.text);
        }
    }

    // Writes out the lines collected.
    pub(crate) fn flush(&mut self)
        ensures put { Puts W.contents self.old [] self.new }
        ensures empty { OnOk self.new.written (self.new.end ≡ 0) }
    {
        if self.written.is_ok() {
            self.written = self.to.write_all(&self.text[..self.end]);
            self.end = 0;
            self.tell_written();
        }
    }

    // Tells on standard error that a write has failed, where it has. No more is written after that.
    fn tell_written(&self) {
        if self.written.is_err() {
            self.tell("listing: standard output cannot be written");
        }
    }

    // Tells a failure on standard error.
    pub(crate) fn tell(&self, failure: &str) {
        let _ = self.told.eprintln(failure);
    }

    // The writer, and what has become of the writes. Lines that could not be written are let go.
    pub(crate) fn finish(self) -> (W, io::Result<()>)
        ensures to { result.0 ≡ self.entry.to }
        ensures written { result.1 ≡ self.entry.written }
    {
        let Output {
            to,
            text: _,
            end: _,
            written,
            told: _,
        } = self;
        (to, written)
    }
}
