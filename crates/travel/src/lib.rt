// Pulses, percents and IP numbers, each counted apart, and the conversions between them (01, Position).
#![tactic(auto)]

ghost use Rattle.std.specs.Prelude.{◌≡◌, ◌*◌, ◌<◌, ◌≤◌};
ghost use Rattle.travel.specs.Nearest.{nearest, IsNearestOfSpan};
ghost use Rattle.travel.specs.Position.{percent_of_pulse, pulse_of_percent};
ghost use Rattle.travel.specs.Share.{share_of};

// Stays: the tuple structs Pulse, Percent and IpIndex are a form that the project names.

// Pulse 0 is the up limit, the travel the down limit.
#[derive(Clone, Copy, Debug, PartialEq, Eq, PartialOrd, Ord)]
pub struct Pulse(pub u16);

#[derive(Clone, Copy, Debug, PartialEq, Eq, PartialOrd, Ord)]
pub struct Percent(pub u8);

// The percent of the travel itself.
const DOWN_LIMIT: Percent = Percent(100);

// IPs are numbered from 1.
#[derive(Clone, Copy, Debug, PartialEq, Eq, PartialOrd, Ord)]
pub struct IpIndex(pub u8);

// 100 × pulse ÷ travel to the nearest whole, halves up; from the travel on, 100.
#[tactic(auto, unfolding(crate::specs::Position::percent_of_pulse))]
pub fn percent_of_pulse(pulse: Pulse, travel: Pulse) -> Percent
    ensures { result ≡ percent_of_pulse pulse travel }
{
    if pulse >= travel {
        return DOWN_LIMIT;
    }
    Percent(nearest_of_span(0, 100, 100 * u32::from(pulse.0), u32::from(travel.0)) as u8)
}

// percent × travel ÷ 100, same rounding; from 100 on, the travel.
#[tactic(auto, unfolding(crate::specs::Position::pulse_of_percent))]
pub fn pulse_of_percent(percent: Percent, travel: Pulse) -> Pulse
    ensures { result ≡ pulse_of_percent percent travel }
{
    if percent >= DOWN_LIMIT {
        return travel;
    }
    Pulse(nearest(u32::from(percent.0) * u32::from(travel.0), 100) as u16)
}

// Percent of IP i where n share the travel (SET_MOTOR_IP, function 4): 100 × i ÷ (n + 1) rounded down; above n, 100.
#[tactic(auto, unfolding(crate::specs::Share::share_of))]
pub fn share_of(i: IpIndex, n: u8) -> Percent
    ensures { result ≡ share_of i n }
{
    if i.0 > n {
        return DOWN_LIMIT;
    }
    Percent((100 * u16::from(i.0) / (u16::from(n) + 1)) as u8)
}

// The whole number of a span nearest to dividend ÷ divisor, halves up. The span is halved and products are compared,
// since the board's processor has no divider; they stay below 2^24, and 0 to 100 take seven rounds at most.
fn nearest_of_span(first: u32, last: u32, dividend: u32, divisor: u32) -> u32
    requires { (first ≤ last) × (last ≤ 100) × (dividend ≤ 100 * 65535) × (divisor ≤ 65535) }
    ensures { IsNearestOfSpan first last dividend divisor result }
{
    let reach = 2 * dividend + divisor;
    let step = 2 * divisor;
    let mut low = first;
    let mut high = last;
    // Stays: this halves the span and counts no index; the library's searches by halves are over slices.
    while low < high {
        let middle = (low + high + 1) / 2;
        if step * middle <= reach {
            low = middle;
        } else {
            high = middle - 1;
        }
    }
    low
}

// dividend ÷ divisor to the nearest whole, halves up; up to 100 times the longest travel nothing wraps.
fn nearest(dividend: u32, divisor: u32) -> u32
    requires { (dividend ≤ 100 * 65535) × (0 < divisor) × (divisor ≤ 65535) }
    ensures { result ≡ nearest dividend divisor }
{
    (2 * dividend + divisor) / (2 * divisor)
}
