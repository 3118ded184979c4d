// The messages of a list of records as lines of hex.
ghost use Rattle.std.specs.Prelude.{◌≡◌, ◌*◌, ◌<◌, length};
ghost use Rattle.lists.specs.Parts.{put};
ghost use Rattle.io.specs.Digits.{hex_digit_ascii};
ghost use Rattle.text.specs.Hex.{message_line, lines_length, lines_room};

use record::{First, read_record};

// The hex digit of a value below 16.
fn form_digit(value: u8) -> u8
    requires { value < 16 }
    ensures { result ≡ hex_digit_ascii value }
{
    if value < 10 {
        b'0' + value
    } else {
        b'a' + (value - 10)
    }
}

// Writes a message as a line of hex at the front of the room, and answers its length.
fn write_line(message: &[u8], room: &mut [u8]) -> usize
    requires { 2 * length message.now < length room.old }
    ensures end { result ≡ length (message_line message.now) }
    ensures room { room.new ≡ put 0 (message_line message.now) room.old }
{
    for (i, byte) in message.iter().enumerate() {
        room[2 * i] = form_digit(*byte / 16);
        room[2 * i + 1] = form_digit(*byte % 16);
    }
    let end = 2 * message.len();
    room[end] = b'\n';
    end + 1
}

// Writes the messages of a list of records as lines at the front of the room, up to the first that is no record, and answers their
// length; a room of fewer than two bytes for each byte of the list is left as it was.
pub fn write_messages(list: &[u8], room: &mut [u8]) -> usize
    ensures end { result ≡ lines_length list.now (length room.old) }
    ensures room { room.new ≡ lines_room list.now room.old }
{
    if room.len() / 2 < list.len() {
        return 0;
    }
    let mut at = 0;
    let mut to = 0;
    while let First::Whole { start, end } = read_record(&list[at..]) {
        let from = at + start;
        at += end;
        to += write_line(&list[from..at], &mut room[to..]);
    }
    to
}
