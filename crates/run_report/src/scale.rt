//! Where numbers lie on an axis.

ghost use Rattle.std.specs.Prelude.{◌≡◌, ◌≤◌, ◌<◌, ◌*◌, ◌^◌, max};
ghost use Rattle.run_report.specs.Scale.{IsRound, place_on};

/// How far along an axis of this length a value lies, where its end stands for `top`.
pub fn place_on(length: u64, value: u64, top: u64) -> u64
    ensures place { result ≡ place_on length value top }
    ensures within { result ≤ length }
{
    if top == 0 {
        return 0;
    }
    let product = u128::from(value) * u128::from(length);
    let along = product / u128::from(top);
    along.min(u128::from(length)) as u64
}

/// The least of 1, 2 and 5 times a power of ten that is as great as this: a step between two ticks.
pub fn round_up(least: u64) -> u64
    requires { 5 * least < 2 ^ 64 }
    ensures round { IsRound result }
    ensures enough { max least 1 ≤ result }
    ensures near { 2 * result ≤ 5 * max least 1 }
{
    let mut unit = 1;
    while unit < least.div_ceil(5) {
        unit *= 10;
    }
    if least <= unit {
        unit
    } else if least <= 2 * unit {
        2 * unit
    } else {
        5 * unit
    }
}
