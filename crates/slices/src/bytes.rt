// An element or a byte of a part, the tests that all bytes of a part or all from a position on are zero, and bytes moved to the front.
ghost use Rattle.std.specs.Prelude.{◌≡◌, ◌+◌, ◌≤◌, ◌<◌, get_or, length, take, drop, eqb};
ghost use Rattle.lists.specs.Parts.{part, put, zeros, sum};

// The element at i, `none` behind the end.
pub fn item_or<T: Copy>(part: &[T], i: usize, none: T) -> T
    ensures { result ≡ get_or part.now i none }
{
    part.get(i).copied().unwrap_or(none)
}

// The byte at i, 0 behind the end.
pub fn byte_at(part: &[u8], i: usize) -> u8
    ensures { result ≡ get_or part.now i 0 }
{
    item_or(part, i, 0)
}

// The four bytes from `at` on as one number.
fn join_four(bytes: &[u8], at: usize) -> u32
    requires { at + 4 ≤ length bytes.now }
    ensures { eqb result 0 ≡ zeros (part at 4 bytes.now) }
{
    u32::from_le_bytes(bytes[at..at + 4].try_into().unwrap())
}

// The eight bytes from `at` on as one number.
fn join_eight(bytes: &[u8], at: usize) -> u64
    requires { at + 8 ≤ length bytes.now }
    ensures { eqb result 0 ≡ zeros (part at 8 bytes.now) }
{
    u64::from_le_bytes(bytes[at..at + 8].try_into().unwrap())
}

// The sixteen bytes from `at` on as one number.
fn join_sixteen(bytes: &[u8], at: usize) -> u128
    requires { at + 16 ≤ length bytes.now }
    ensures { eqb result 0 ≡ zeros (part at 16 bytes.now) }
{
    u128::from_le_bytes(bytes[at..at + 16].try_into().unwrap())
}

// The sum of the first three bytes, or of as many of them as there are.
fn sum_three(part: &[u8]) -> u64
    ensures { result ≡ sum (take 3 part.now) }
{
    u64::from(byte_at(part, 0)) + u64::from(byte_at(part, 1)) + u64::from(byte_at(part, 2))
}

// Whether fewer than sixteen bytes are all zero: by the first and the last eight or four of them, which may overlap, or by their sum.
fn is_short_zero(part: &[u8]) -> bool
    requires { length part.now < 16 }
    ensures { result ≡ zeros part.now }
{
    if 8 <= part.len() {
        return (join_eight(part, 0) | join_eight(part, part.len() - 8)) == 0;
    }
    if 4 <= part.len() {
        return (join_four(part, 0) | join_four(part, part.len() - 4)) == 0;
    }
    sum_three(part) == 0
}

// Whether all bytes are zero: sixteen a turn, and the last sixteen from the end.
pub fn is_zero(part: &[u8]) -> bool
    ensures { result ≡ zeros part.now }
{
    if part.len() < 16 {
        return is_short_zero(part);
    }
    let last = part.len() - 16;
    let mut bits = 0;
    for i in (0..last).step_by(16) {
        bits |= join_sixteen(part, i);
    }
    (bits | join_sixteen(part, last)) == 0
}

// Whether all bytes from `from` on are zero.
pub fn is_zero_from(part: &[u8], from: usize) -> bool
    ensures { result ≡ zeros (drop from part.now) }
{
    part.len() <= from || is_zero(&part[from..])
}

// Moves the n bytes from `from` on to the front, or as many of them as there are; the bytes behind them stay.
pub fn move_front(bytes: &mut [u8], from: usize, n: usize)
    ensures { bytes.new ≡ put 0 (part from n bytes.old) bytes.old }
{
    if from < bytes.len() {
        let size = n.min(bytes.len() - from);
        bytes.copy_within(from..from + size, 0);
    }
}
