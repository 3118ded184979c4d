// The configuration of a log: its numbers, judged as they are read, and the ledger that they start.
ghost use Rattle.std.specs.Prelude.{◌≡◌, ◌<◌};
ghost use Rattle.logs.specs.Log.{suits, value_ok, configuration_at, configuration_of, ledger_of};

use cause::{Cause, Fault};
use container::FORMATS;
use ledger::Ledger;
use pools::{MAX_CAPACITY, MAX_PLANES, Receiver};
use record::{Number, read_number};

// The numbers of a configuration: the format, and those of each direction.
const NUMBERS: usize = 33;

const RECEIVER_NUMBERS: usize = 16;

// The numbers of a configuration, and its bytes.
#[derive(Clone, Copy, Debug, PartialEq, Eq)]
pub struct Configuration {
    pub numbers: [u32; NUMBERS],
    pub used: usize,
}

// Whether a value may be the number at a place of a receiver's sixteen.
fn suits_receiver(receiver: Receiver, place: u32, value: u32) -> bool
    ensures { result ≡ suits receiver place value }
{
    match place {
        0 => (1..=MAX_PLANES).contains(&value),
        1 => value < 2,
        _ => value <= MAX_CAPACITY && (value == 0 || receiver.has_pool(place - 2)),
    }
}

// Whether a value may be number i of a configuration, behind the numbers before it.
fn suits_place(numbers: [u32; NUMBERS], i: usize, value: u32) -> bool
    requires { i < 33 }
    ensures { result ≡ value_ok numbers i value }
{
    if i == 0 {
        return value < FORMATS;
    }
    let start = (i - 1) / RECEIVER_NUMBERS * RECEIVER_NUMBERS + 1;
    let place = (i - 1) % RECEIVER_NUMBERS;
    let receiver = Receiver::from_numbers(&numbers, start);
    suits_receiver(receiver, place as u32, value)
}

// The configuration at the front of the bytes: each number is judged for its form and then for its value.
pub fn read_configuration(bytes: &[u8]) -> Result<Configuration, Fault>
    ensures { result ≡ configuration_of (configuration_at bytes.now) }
{
    let mut numbers = [0u32; NUMBERS];
    let mut at = 0;
    for i in 0..NUMBERS {
        let Some(Number { value, used }) = read_number(&bytes[at..]) else {
            return Err(Cause::BrokenRecord.at(at as u64));
        };
        if !suits_place(numbers, i, value) {
            return Err(Cause::InvalidState.at(0));
        }
        numbers[i] = value;
        at += used;
    }
    Ok(Configuration { numbers, used: at })
}

// The ledger that a configuration starts.
#[tactic(auto, using(crate::proofs::ConfigurationLaws::receiver_named))]
pub fn start_ledger(numbers: [u32; NUMBERS]) -> Ledger
    ensures { result ≡ ledger_of numbers }
{
    let first = Receiver::from_numbers(&numbers, 1);
    let second = Receiver::from_numbers(&numbers, 1 + RECEIVER_NUMBERS);
    Ledger::empty(numbers[0], first, second)
}
