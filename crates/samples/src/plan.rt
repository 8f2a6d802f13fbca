// What the points of a chunk share: a template row, and what differs from point to point.
ghost use Rattle.std.specs.Prelude.{◌≡◌, ◌<◌, ◌≤◌, ◌*◌, ◌/◌, ◌^◌, ℕ, get_or, length, pos};
ghost use Rattle.std.specs.Option.{ForSome};
ghost use Rattle.samples.specs.Limits.{colour_limit, octet_limit, row_size};
ghost use Rattle.samples.specs.Row.{lit_of, row_of};
ghost use Rattle.samples.specs.Signals.{BothReadable, BothStored, NoneLitIn, scaled_in};
ghost use Rattle.samples.specs.Plan.{Planned, Ready, SingleFits, SinglesFit, octet_in, rest_of, single_over, singles_over};

use super::limits::ROW;
use super::places::{HINT, HINT_WITH_SHUTTER, Places};
use super::signals::{Kind, Signal};

// Slots of a row, numbers since they index it: coordinates from 0 on, these three that stand alone, and from COLOURS and WAVES on one for each colour.
const SHUTTER: usize = 5;

const INTENSITY: usize = 6;

const BRUSH: usize = 7;

const COLOURS: usize = 8;

const WAVES: usize = 16;

// A chunk's plan: the row of a sample without octets, the place of the hint's octet and whether it gives the shutter, and the signals
// that a sample has. The flag stands beside the place: with an enum of the hint's two formats a sparse wave of 100 points takes 1.034 of the
// instructions that it took, where 1.03 is the bar.
#[derive(Drop)]
pub struct Plan {
    pub template: [i32; ROW],
    hint: Option<u8>,
    shutter: bool,
    intensity: Option<Signal>,
    brush: Option<Signal>,
    coordinates: Kind,
    colours: Kind,
    waves: Kind,
}

// The row of a sample without octets.
fn template(waves: &[u16], shutter: bool) -> [i32; ROW]
    requires { length waves.now ≤ colour_limit }
    ensures { (length result ≡ row_size) × ((s : ℕ) → s < row_size → get_or result s (pos 0) ≡ rest_of shutter waves.now s) }
{
    let mut row = [0; ROW];
    row[SHUTTER] = i32::from(!shutter);
    for (k, wave) in waves.iter().enumerate() {
        row[WAVES + k] = i32::from(*wave) * 64;
    }
    row
}

// The template, over the whole row. The row's length stands here and in the clauses below: with `&mut [i32; ROW]`, by `as_mut_array`, the
// proof of `draw_rows` did not close. An index: with `copy_from_slice` a point takes 10 to 12 instructions more, and a sparse one may take 3.
fn copy_template(template: &[i32; ROW], row: &mut [i32])
    requires { length row.old ≡ row_size }
    ensures { row.new ≡ template.now }
{
    for k in 0..ROW {
        row[k] = template[k];
    }
}

// A signal whose slot stands alone, if there is one, divided by 2 to the power `shift`.
#[tactic(auto, unfolding(crate::specs::Plan::single_over))]
fn put_single(single: Option<Signal>, shift: u8, sample: &[u8], row: &mut [i32])
    requires { (length row.old ≡ row_size) × (shift < 8) × SingleFits single (length sample.now) }
    ensures { row.new ≡ single_over single shift sample.now row.old }
{
    if let Some(signal) = single {
        let precise = usize::from(signal.second) < sample.len();
        row[usize::from(signal.slot)] = signal.scaled(precise, shift, sample) as i32;
    }
}

impl Plan {
    pub fn new(roles: &[u8], waves: &[u16]) -> Self
        requires { (length roles.now ≤ octet_limit) × (length waves.now ≤ colour_limit) }
        ensures { Planned result roles.now waves.now }
    {
        let places = Places::new(roles);
        let newer = places.get(HINT_WITH_SHUTTER);
        let shutter = newer.is_some();
        Plan {
            template: template(waves, shutter),
            hint: newer.or(places.get(HINT)),
            shutter,
            intensity: places.alone(INTENSITY),
            brush: places.alone(BRUSH),
            coordinates: Kind::gather(&places, waves, 0..SHUTTER),
            colours: Kind::gather(&places, waves, COLOURS..WAVES),
            waves: Kind::gather(&places, waves, WAVES..ROW),
        }
    }

    // The hint's octet, 0 where there is none.
    #[tactic(auto, unfolding(crate::specs::Plan::octet_in))]
    fn hint(&self, sample: &[u8]) -> u8
        requires { ForSome self.now.hint (λ place. place < length sample.now) }
        ensures { result ≡ octet_in self.now.hint sample.now }
    {
        self.hint.map_or(0, |place| sample[usize::from(place)])
    }

    // Shutter, intensity and brush.
    #[tactic(auto, unfolding(crate::specs::Plan::singles_over))]
    fn put_singles(&self, hint: u8, sample: &[u8], row: &mut [i32])
        requires { (length row.old ≡ row_size) × SinglesFit self.now (length sample.now) }
        ensures { row.new ≡ singles_over self.now hint sample.now row.old }
    {
        if self.shutter {
            row[SHUTTER] = i32::from(hint % 2);
        }
        put_single(self.intensity, hint / 16 % 4 * 2, sample, row);
        put_single(self.brush, 0, sample, row);
    }

    // The colours, and a number that is 0 if all of them are. Without a hint they have loops of their own, which shift nothing.
    fn put_colours(&self, hint: u8, sample: &[u8], row: &mut [i32]) -> u32
        requires { (length row.old ≡ row_size) × (hint ≡ octet_in self.now.hint sample.now) × BothReadable self.now.colours (length sample.now) }
        ensures stored { BothStored (λ x. pos (scaled_in (hint / 64 * 2) sample.now x)) self.now.colours row.old row.new }
        ensures dark { NoneLitIn result (scaled_in (hint / 64 * 2) sample.now) self.now.colours }
    {
        if self.hint.is_some() {
            self.colours.put_scaled(hint / 64 * 2, sample, row)
        } else {
            self.colours.put_scaled(0, sample, row)
        }
    }

    // The row of one sample, and whether the point is lit; `template` is the plan's.
    pub fn draw(&self, template: &[i32; ROW], sample: &[u8], row: &mut [i32]) -> bool
        requires { (length row.old ≡ row_size) × (template.now ≡ self.now.template) × Ready self.now (length sample.now) }
        ensures { (d : Ready self.now (length sample.now)) → (row.new ≡ row_of d.roles d.waves sample.now) × (result ≡ lit_of d.roles sample.now) }
    {
        copy_template(template, row);
        let hint = self.hint(sample);
        let joined = self.put_colours(hint, sample, row);
        self.put_singles(hint, sample, row);
        self.coordinates.put_signed(sample, row);
        self.waves.put_scaled(0, sample, row);
        joined != 0
    }
}
