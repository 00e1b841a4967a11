// A whole number in groups of seven bits, lowest group first, read and written in its shortest form alone.
ghost use Rattle.std.specs.Prelude.{◌≡◌, ◌+◌, ◌^◌, ◌≤◌, ◌<◌, length};
ghost use Rattle.std.proofs.lemmas.List.Edits.{sets};
ghost use Rattle.numbers.specs.Plain.{number_at, last_group, bytes_of};

// A number that was read, with the offset after it.
#[derive(Clone, Copy)]
pub struct Number {
    pub value: u64,
    pub next: usize,
}

// The last group b of a number, after groups that come to `value`, of which the next would count `scale` times.
fn last(b: u64, value: u64, scale: u64, next: usize) -> Option<Number>
    requires { (b < 128) × ((value < scale) × (scale ≤ 2 ^ 56)) }
    ensures { result ≡ last_group b value scale next }
{
    if 0 < b {
        let value = b * scale + value;
        return Some(Number { value, next });
    }
    if 1 < scale {
        return None;
    }
    Some(Number { value, next })
}

// The number that starts at `at`; none where no number stands there in its shortest form.
pub fn number_at(s: &[u8], at: usize) -> Option<Number>
    ensures { result ≡ number_at s.now at }
{
    if s.len() < at {
        return None;
    }
    let mut value: u64 = 0;
    let mut scale: u64 = 1;
    for groups in 0..9 {
        let i = at + groups;
        let b = u64::from(*s.get(i)?);
        if b < 128 {
            return last(b, value, scale, i + 1);
        }
        value += b % 128 * scale;
        scale *= 128;
    }
    None
}

// How many bytes `x` takes, group by group.
fn groups_of(x: u64) -> usize
    ensures { result ≡ length (bytes_of x) }
{
    if x < 128 {
        return 1;
    }
    let rest = groups_of(x / 128);
    rest + 1
}

// The same. Most numbers have one group, and are told without a call.
pub fn size(x: u64) -> usize
    ensures { result ≡ length (bytes_of x) }
{
    if 127 < x {
        let more = groups_of(x / 128);
        return more + 1;
    }
    1
}

// Writes `x` at `at`, where the caller has made sure of the room, and answers the offset after it.
pub fn put(out: &mut [u8], at: usize, x: u64) -> usize
    requires { at + length (bytes_of x) ≤ length out.old }
    ensures { (result ≡ at + length (bytes_of x)) × (out.new ≡ sets out.old at (bytes_of x)) }
{
    if x < 128 {
        out[at] = x as u8;
        return at + 1;
    }
    out[at] = (x % 128 + 128) as u8;
    put(out, at + 1, x / 128)
}
