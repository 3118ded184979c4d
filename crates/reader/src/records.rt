// The messages that end in a container, written as records to lent room.
ghost use Rattle.std.specs.Prelude.{◌≡◌, ◌+◌, ◌≤◌, ◌<◌, length};
ghost use Rattle.lists.specs.Parts.{put};
ghost use Rattle.container.specs.Layout.{format_of};
ghost use Rattle.record.specs.Records.{record_of, records_of};
ghost use Rattle.placement.specs.Cells.{cells, endings};
ghost use Rattle.reader.specs.TrackingMirror.{gathered_message, ended_by, Ending};

use crate::contents::Contents;
use crate::track::Track;
use container::{GRANULES, WIDE, locate_granule, measure_granule, starts_at};
use message::measure_message;
use slices::copy_into;

// Writes a message of at most 20 bytes as a record, and answers the offset behind it.
fn write_short(message: &[u8], room: &mut [u8], at: usize) -> usize
    requires { (length message.now ≤ 20) × (at + length message.now < length room.old) }
    ensures end { result ≡ at + length (record_of message.now) }
    ensures room { room.new ≡ put at (record_of message.now) room.old }
{
    room[at] = message.len() as u8;
    copy_into(room, at + 1, message);
    at + 1 + message.len()
}

impl Contents<'_> {
    // Writes a longer message, whose last granule is g, as a record, and answers the offset behind it.
    fn write_long(self, track: Track, g: u8, room: &mut [u8], at: usize) -> usize
        requires kept_le_carry { track.kept ≤ length self.carry.now }
        requires from_le_g { (track.from ≤ g) × (g < 12) }
        requires size_value { (track.size ≡ length (gathered_message (format_of self.format) self.container.now self.carry.now track (g + 1))) × (track.size ≤ 120) }
        requires size_in_bounds { at + track.size < length room.old }
        ensures end { result ≡ at + length (record_of (gathered_message (format_of self.entry.format) self.entry.container.now self.entry.carry.now track (g + 1))) }
        ensures room { room.new ≡ put at (record_of (gathered_message (format_of self.entry.format) self.entry.container.now self.entry.carry.now track (g + 1))) room.old }
    {
        let size = track.size;
        room[at] = size as u8;
        self.gather_message(track, g + 1, room, at + 1);
        at + 1 + size
    }

    // Writes the message whose last granule is g, if there is one, and answers the offset behind it.
    fn write_ending(self, track: Track, g: u8, room: &mut [u8], at: usize) -> usize
        requires kept_le_carry { track.kept ≤ length self.carry.now }
        requires from_le_g { (track.from ≤ g) × (g < 12) }
        requires ending { Ending (format_of self.format) self.container.now self.carry.now track g }
        requires g_in_bounds { at + length (records_of (ended_by (format_of self.format) self.container.now self.carry.now self.msgstart track g)) ≤ length room.old }
        ensures end { result ≡ at + length (records_of (ended_by (format_of self.entry.format) self.entry.container.now self.entry.carry.now self.entry.msgstart track g)) }
        ensures room { room.new ≡ put at (records_of (ended_by (format_of self.entry.format) self.entry.container.now self.entry.carry.now self.entry.msgstart track g)) room.old }
    {
        let container = self.container;
        let width = measure_granule(self.format, g);
        if 0 < track.owed && width == WIDE {
            if track.owed <= WIDE {
                return self.write_long(track, g, room, at);
            }
            return at;
        }
        if !starts_at(self.msgstart, g) {
            return at;
        }
        let a = locate_granule(g);
        let size = measure_message(&container[a..a + width]);
        if width < size {
            return at;
        }
        write_short(&container[a..a + size], room, at)
    }

    // Writes the messages that end in a container as records at the front of the room, and answers their length.
    pub(crate) fn write_endings(self, room: &mut [u8]) -> usize
        requires { 352 ≤ length room.old }
        ensures end { result ≡ length (records_of (endings (format_of self.entry.format) 0 (cells (format_of self.entry.format) self.entry.container.now 12 0 self.entry.carry.now) self.entry.carry.now)) }
        ensures room { room.new ≡ put 0 (records_of (endings (format_of self.entry.format) 0 (cells (format_of self.entry.format) self.entry.container.now 12 0 self.entry.carry.now) self.entry.carry.now)) room.old }
    {
        let mut track = Track::carried(self.carry);
        let mut at = 0;
        for g in 0..GRANULES {
            at = self.write_ending(track, g, room, at);
            track = track.pass(self, g);
        }
        at
    }
}
