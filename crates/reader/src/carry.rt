// What is carried from one container of a direction to the next.
ghost use Rattle.std.specs.Prelude.{◌≡◌, []};
ghost use Rattle.placement.specs.Cells.{carry_ok};
ghost use Rattle.reader.specs.Reading.{valid_carry, carry_with};

use container::WIDE;
use message::{is_well_headed, measure_message};
use slices::is_zero;

// The most bytes that are carried.
pub const CARRY: usize = 100;

// What was read of a message that goes on in the next container of its direction, and how many bytes that is, with zeros behind.
#[derive(Clone, Copy)]
pub struct Carry {
    pub bytes: [u8; CARRY],
    pub len: usize,
}

// Whether bytes may be carried.
fn is_carry(carry: &[u8]) -> bool
    ensures { result ≡ carry_ok carry.now }
{
    carry.is_empty()
        || carry.len() % WIDE == 0 && carry.len() < measure_message(carry) && is_well_headed(carry)
}

impl Carry {
    // Nothing is carried.
    pub fn none() -> Carry
        ensures { result ≡ carry_with [] }
    {
        Carry {
            bytes: [0u8; CARRY],
            len: 0,
        }
    }

    // Whether a valid reader may carry it.
    pub fn is_valid(self) -> bool
        ensures { result ≡ valid_carry self }
    {
        self.len <= CARRY && is_carry(&self.bytes[..self.len]) && is_zero(&self.bytes[self.len..])
    }
}
