// What a line asks.
ghost use Rattle.std.specs.Prelude.{◌≡◌, ◌≤◌, length};
ghost use Rattle.std.specs.Option.{option_map};
ghost use Rattle.std.specs.Char.{is_ascii_digit};
ghost use Rattle.std.specs.List.{prefix_len};
ghost use Rattle.trial.specs.Line.{value, leading_field, last_field, parsed};

// The longest line that is read.
const LONGEST: usize = 200;

// The most digits of a number.
const MOST_DIGITS: usize = 5;

#[derive(Clone, Copy, Debug)]
pub(crate) enum Request {
    Reserve { station: u32, count: u32 },
    GiveBack { station: u32, count: u32 },
    Void { station: u32 },
}

// How many digits the bytes begin with.
fn digits(s: &[u8]) -> usize
    ensures value { result ≡ prefix_len is_ascii_digit s.now }
    ensures within { result ≤ length s.now }
{
    s.iter().take_while(|b| b.is_ascii_digit()).count()
}

// The number that a few digits write.
fn number(s: &[u8]) -> u32
    requires { length s.now ≤ 5 }
    ensures { result ≡ value s.now }
{
    // no `fold`: that its closure may be called at each total takes more to show than this loop does
    let mut n = 0;
    for b in s {
        n = n * 10 + u32::from(b.saturating_sub(b'0'));
    }
    n
}

// A number at the front, and what follows it.
fn leading_field(s: &[u8]) -> Option<(u32, &[u8])>
    ensures { option_map (λ p. (p.0, p.1.now)) result ≡ leading_field s.now }
{
    let n = digits(s);
    if n < 1 || n > MOST_DIGITS {
        return None;
    }
    let (front, rest) = s.split_at(n);
    Some((number(front), rest))
}

// The number of a line's last field, from the space before it on.
fn last_field(s: &[u8]) -> Option<u32>
    ensures { result ≡ last_field s.now }
{
    let [b' ', s @ ..] = s else {
        return None;
    };
    let (n, rest) = leading_field(s)?;
    rest.is_empty().then_some(n)
}

// What a line asks, or None where it has none of the forms.
pub(crate) fn parse(line: &[u8]) -> Option<Request>
    ensures { result ≡ parsed line.now }
{
    if line.len() > LONGEST {
        return None;
    }
    let [letter, b' ', rest @ ..] = line else {
        return None;
    };
    let (station, rest) = leading_field(rest)?;
    match *letter {
        b'R' => Some(Request::Reserve {
            station,
            count: last_field(rest)?,
        }),
        b'G' => Some(Request::GiveBack {
            station,
            count: last_field(rest)?,
        }),
        b'V' if rest.is_empty() => Some(Request::Void { station }),
        _ => None,
    }
}
