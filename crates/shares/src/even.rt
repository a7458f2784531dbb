// The even shares of a limit, in whole watts.
ghost use Rattle.std.specs.Prelude.{◌≡◌, ◌^◌, ◌<◌, nat_le};
ghost use Rattle.shares.specs.Shares.{total, Level, level, left_over, share_of, left_after, given, shares};
ghost use Rattle.shares.specs.Fair.{Fair};
ghost use Rattle.shares.specs.Code.Parted as Spec;

// The requests parted by a level: the sum of those at or below it, and how many are above it.
#[derive(Clone, Copy)]
struct Parted {
    under: u64,
    above: u64,
}

// A level, and what it leaves of the limit.
#[derive(Clone, Copy)]
struct Levelled {
    level: u64,
    left: u64,
}

// Whether the requests fit.
fn fit(requests: &[u64], limit: u64) -> bool
    ensures { result ≡ nat_le (total requests.now) limit }
{
    let mut left = limit;
    for w in requests {
        if left < *w {
            return false;
        }
        left -= *w;
    }
    true
}

fn part(requests: &[u64], level: u64) -> Parted
    requires { Spec.under level requests.now < 2 ^ 64 }
    ensures under { result.under ≡ Spec.under level requests.now }
    ensures above { result.above ≡ Spec.above level requests.now }
{
    let mut under: u64 = 0;
    let mut above: u64 = 0;
    for w in requests {
        if level < *w {
            above += 1;
        } else {
            under += *w;
        }
    }
    Parted { under, above }
}

// The level of requests that do not fit. Those at or below a level have what they ask; the others share the rest, which raises it,
// until nobody more is at or below it.
fn level_of(requests: &[u64], limit: u64) -> Levelled
    requires { limit < total requests.now }
    ensures level { result.level ≡ level requests.now limit }
    ensures left { result.left ≡ left_over requests.now limit }
{
    let mut level: u64 = 0;
    loop {
        let s = part(requests, level);
        let rest = limit - s.under;
        let next = rest / s.above;
        if next == level {
            return Levelled {
                level,
                left: rest % s.above,
            };
        }
        level = next;
    }
}

fn share_of(level: u64, left: u64, request: u64) -> u64
    ensures { result ≡ share_of level left request }
{
    if level < request {
        if 0 < left { level + 1 } else { level }
    } else {
        request
    }
}

// Level and left-over watts go apart: the level stays, and the left-over watts are given away one by one.
fn left_after(level: u64, left: u64, request: u64) -> u64
    ensures { result ≡ left_after level left request }
{
    if level < request {
        if 0 < left {
            return left - 1;
        }
    }
    left
}

fn give(watts: &mut [u64], level: u64, left: u64)
    ensures { watts.new ≡ given level left watts.old }
{
    let mut rest = left;
    for w in watts.iter_mut() {
        let request = *w;
        *w = share_of(level, rest, request);
        rest = left_after(level, rest, request);
    }
}

// The requests become their shares of the limit, in place.
pub fn share(watts: &mut [u64], limit: u64)
    ensures shared { watts.new ≡ shares watts.old limit }
    ensures fair { Fair watts.old limit watts.new }
    ensures largest { limit < total watts.old → Level watts.old limit (level watts.old limit) }
{
    if fit(watts, limit) {
        return;
    }
    let found = level_of(watts, limit);
    give(watts, found.level, found.left);
}
