// Text written into a slice. A number is written at the front of what is lent, and its caller lends what lies after the text written so
// far; a line is added at a place.
ghost use Rattle.std.specs.Prelude.{◌∷◌, ◌+◌, ◌*◌, ◌≤◌, length};
ghost use Rattle.lines.specs.Text.{decimal, spaced, line_of, room, Front, Added};

// Copies a text to the front of out, and gives its length.
pub(crate) fn copy(text: &[u8], out: &mut [u8]) -> usize
    requires { length text.now ≤ length out.old }
    ensures { Front text.now out.old result out.new }
{
    let count = text.len();
    out[..count].copy_from_slice(text);
    count
}

// A space, and a number in decimal.
fn number(n: u64, out: &mut [u8]) -> usize
    requires { 21 ≤ length out.old }
    ensures { Front (32 ∷ decimal n) out.old result out.new }
{
    out[0] = b' ';
    let mut digits = [0u8; 20];
    let k = io::decimal(n, &mut digits);
    1 + copy(&digits[..k], &mut out[1..])
}

// Each number after a space.
fn numbers(ns: &[u64], out: &mut [u8]) -> usize
    requires { 21 * length ns.now ≤ length out.old }
    ensures { Front (spaced ns.now) out.old result out.new }
{
    let mut at: usize = 0;
    for n in ns {
        at += number(*n, &mut out[at..]);
    }
    at
}

// A line of a word and numbers. A word of up to 20 octets and four numbers are all that a line of the listing has.
pub(crate) fn line(word: &[u8], ns: &[u64], at: usize, out: &mut [u8]) -> usize
    requires word_len_bound { length word.now ≤ 20 }
    requires ns_len_bound { length ns.now ≤ 4 }
    requires room_in_bounds { at + room ≤ length out.old }
    ensures { Added (line_of word.now ns.now) at out.old result out.new }
{
    let a = at + copy(word, &mut out[at..]);
    let b = a + numbers(ns, &mut out[a..]);
    b + copy(b"\n", &mut out[b..])
}
