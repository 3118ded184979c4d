// The check of one container and the feeder, exported to C.
#![tactic(auto)]

ghost use Rattle.std.specs.Prelude.{◌≡◌, length};
ghost use Rattle.host.specs.Check.{check_code, check_room};
ghost use Rattle.host.specs.Feed.{feed_code, feed_numbers, feed_room};

// Checks one container from a fresh state: 0, or cause · 65,536 + place; the room ends as the reader leaves it.
#[unsafe(no_mangle)]
pub extern "C" fn c2c_check(format: u32, container: &[u8], room: &mut [u8]) -> u32
    ensures code { result ≡ check_code format container.now (length room.old) }
    ensures room { room.new ≡ check_room format container.now room.old }
{
    host::c2c_check(format, container, room)
}

// Asks for the next record of two waiting lists: cause · 16,777,216 + list · 65,536 + the record's bytes or the place.
#[unsafe(no_mangle)]
pub extern "C" fn c2c_feed(
    format: u32,
    feed: &mut [u32],
    responses: &[u8],
    others: &[u8],
    room: &mut [u8],
) -> u32
    ensures code { result ≡ feed_code format feed.old responses.now others.now (length room.old) }
    ensures feed { feed.new ≡ feed_numbers format feed.old responses.now others.now (length room.old) }
    ensures room { room.new ≡ feed_room format feed.old responses.now others.now room.old }
{
    host::c2c_feed(format, feed, responses, others, room)
}
