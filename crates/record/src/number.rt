// A number in seven-bit groups: low group first, top bit set when more follow, shortest form, at most five groups and at most
// 4,294,967,295.
ghost use Rattle.std.specs.Prelude.{◌≡◌, ◌≤◌, Some};
ghost use Rattle.record.specs.Number.{used_of, joined, read_groups, read_number, encoded};

// A number at the front of a list, and how many bytes of it.
#[derive(Clone, Copy, Debug, PartialEq, Eq)]
pub struct Number {
    pub value: u32,
    pub used: usize,
}

// A number as bytes, zeros behind, and how many of them it has.
#[derive(Clone, Copy, Debug, PartialEq, Eq)]
pub struct Encoded {
    pub bytes: [u8; 5],
    pub len: usize,
}

// A byte that says that more follow, before the number of the groups behind it.
fn join_group(low: u8, rest: Number) -> Option<Number>
    requires { rest.used ≤ 4 }
    ensures { result ≡ joined low (Some rest) }
{
    if rest.value == 0 {
        return None;
    }
    let whole = (low as u64) % 128 + 128 * (rest.value as u64);
    if 4294967295 < whole {
        return None;
    }
    Some(Number {
        value: whole as u32,
        used: rest.used + 1,
    })
}

// The number of at most `left` groups at the front of a list.
fn read_groups(list: &[u8], left: u32) -> Option<Number>
    requires { left ≤ 5 }
    ensures { result ≡ read_groups left list.now }
{
    if left == 0 {
        return None;
    }
    if list.len() == 0 {
        return None;
    }
    let low = list[0];
    if low < 128 {
        return Some(Number {
            value: low as u32,
            used: 1,
        });
    }
    let rest = read_groups(&list[1..], left - 1)?;
    join_group(low, rest)
}

// The number at the front of a list.
pub fn read_number(list: &[u8]) -> Option<Number>
    ensures { result ≡ read_number list.now }
{
    read_groups(list, 5)
}

// A number in its groups.
pub fn encode_number(value: u32) -> Encoded
    ensures { result ≡ encoded value }
{
    let mut bytes = [0u8; 5];
    let mut rest = value;
    let mut len = 0;
    while 128 <= rest {
        bytes[len] = 128 + (rest % 128) as u8;
        rest = rest / 128;
        len += 1;
    }
    bytes[len] = rest as u8;
    Encoded {
        bytes,
        len: len + 1,
    }
}
