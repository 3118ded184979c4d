// The check of one container for a host written in C.
ghost use Rattle.std.specs.Prelude.{◌≡◌, length};
ghost use Rattle.host.specs.Check.{check_code, check_room};

use cause::number_cause;
use reader::{Answer, Reader};

// Checks one container from a fresh state: 0, or cause · 65,536 + place; the room ends as the reader leaves it.
#[tactic(auto, using(reader::proofs::PlaceLaws::refused_place, cause::proofs::CauseLaws::number_most), unfolding(crate::specs::Check::check_code, crate::specs::Check::check_room))]
pub fn c2c_check(format: u32, container: &[u8], room: &mut [u8]) -> u32
    ensures code { result ≡ check_code format container.now (length room.old) }
    ensures room { room.new ≡ check_room format container.now room.old }
{
    match Reader::empty(format).read(container, room).answer {
        Answer::Accepted { .. } => 0,
        Answer::Refused { cause, place } => number_cause(cause) * 65536 + place as u32,
    }
}
