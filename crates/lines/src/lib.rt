// The lines of the listing program, and how its messages are read.
#![tactic(auto)]

pub mod reading;
mod text;

ghost use Rattle.std.specs.Prelude.{◌+◌, ◌≤◌, length, Some};
ghost use Rattle.lines.specs.Text.{room, Added};
ghost use Rattle.lines.specs.Lines.{reply_line, cut_line, meters_line, text_of};

use receiver::{Readings, Reply};
use std::fmt;

// A line: of a reply, of an input that is cut with the count of octets from the cut message on, or of the three readings.
#[derive(Clone, Copy)]
pub enum Line {
    Answer(Reply),
    Cut(u64),
    Meters(Readings),
}

impl fmt::Display for Line {
    ghost output = { λ line. Some (text_of line) };

    fn fmt<W: fmt::Write>(&self, f: &mut fmt::Formatter<W>) -> fmt::Result {
        match *self {
            Line::Answer(reply) => write!(
                f,
                "{} {} {} {} {}",
                reply.channel.0, reply.chunk_type, reply.number, reply.points, reply.lit_points
            ),
            Line::Cut(count) => write!(f, "cut {count}"),
            Line::Meters(readings) => write!(
                f,
                "meters {} {} {}",
                readings.lit_time, readings.points, readings.lit_points
            ),
        }
    }
}

// A line may be put into a slice too, where it is not printed: these three need no writer and no memory, and cannot fail.
// They are public, so at and out come as they did, and text::line takes both from them.

// The room that a line must have. No line is longer.
pub const ROOM: usize = 128;

// Adds the line of a reply: channel, type, number, points and lit points.
pub fn reply_line(reply: Reply, at: usize, out: &mut [u8]) -> usize
    requires { at + room ≤ length out.old }
    ensures { Added (reply_line reply) at out.old result out.new }
{
    let numbers = [
        u64::from(reply.chunk_type),
        u64::from(reply.number),
        u64::from(reply.points),
        u64::from(reply.lit_points),
    ];
    let mut channel = [0u8; 20];
    let k = io::decimal(u64::from(reply.channel.0), &mut channel);
    text::line(&channel[..k], &numbers, at, out)
}

// Adds the line of an input that is cut, with the count of octets from the cut message on; none where no octet is left.
pub fn cut_line(count: u64, at: usize, out: &mut [u8]) -> usize
    requires { at + room ≤ length out.old }
    ensures { Added (cut_line count) at out.old result out.new }
{
    if count == 0 {
        return at;
    }
    text::line(b"cut", &[count], at, out)
}

// Adds the last line: the three readings.
pub fn meters_line(readings: Readings, at: usize, out: &mut [u8]) -> usize
    requires { at + room ≤ length out.old }
    ensures { Added (meters_line readings) at out.old result out.new }
{
    let numbers = [readings.lit_time, readings.points, readings.lit_points];
    text::line(b"meters", &numbers, at, out)
}
