// Bytes of a message gathered from the granules that it lies in.
ghost use Rattle.std.specs.Prelude.{◌≡◌, ◌+◌, ◌-◌, ◌≤◌, length};
ghost use Rattle.lists.specs.Parts.{put};
ghost use Rattle.container.specs.Layout.{format_of};
ghost use Rattle.reader.specs.Reading.{carry_with};
ghost use Rattle.reader.specs.TrackingMirror.{gathered, gathered_message, in_progress, GoingOn};

use crate::carry::{CARRY, Carry};
use crate::contents::Contents;
use crate::track::Track;
use container::{GRANULES, WIDE, locate_granule, measure_granule};
use slices::copy_into;

impl Contents<'_> {
    // Copies the wide ones among the granules in a range into lent memory from an offset on.
    fn gather_granules(self, from: u8, to: u8, out: &mut [u8], at: usize)
        requires to_bound { to ≤ 12 }
        requires count_in_bounds { at + length (gathered (format_of self.format) self.container.now from (to - from)) ≤ length out.old }
        ensures { out.new ≡ put at (gathered (format_of self.entry.format) self.entry.container.now from (to - from)) out.old }
    {
        let container = self.container;
        let mut end = at;
        for g in from..to {
            if measure_granule(self.format, g) == WIDE {
                let a = locate_granule(g);
                copy_into(out, end, &container[a..a + WIDE]);
                end += WIDE;
            }
        }
    }

    // Copies the message in progress, read up to granule g, into lent memory from an offset on.
    pub(crate) fn gather_message(self, track: Track, g: u8, out: &mut [u8], at: usize)
        requires kept_le_carry { track.kept ≤ length self.carry.now }
        requires from_le_g { (track.from ≤ g) × (g ≤ 12) }
        requires g_in_bounds { at + length (gathered_message (format_of self.format) self.container.now self.carry.now track g) ≤ length out.old }
        ensures { out.new ≡ put at (gathered_message (format_of self.entry.format) self.entry.container.now self.entry.carry.now track g) out.old }
    {
        let carry = self.carry;
        copy_into(out, at, &carry[..track.kept]);
        self.gather_granules(track.from as u8, g, out, at + track.kept);
    }

    // What is carried on of the message in progress behind a container.
    pub(crate) fn gather_carry(self, track: Track) -> Carry
        requires kept_le_carry { track.kept ≤ length self.carry.now }
        requires from_bound { (track.from ≤ 12) × GoingOn (format_of self.format) self.container.now self.carry.now track }
        ensures { result ≡ carry_with (in_progress (format_of self.entry.format) self.entry.container.now self.entry.carry.now track 12) }
    {
        if track.owed == 0 {
            return Carry::none();
        }
        let mut bytes = [0u8; CARRY];
        self.gather_message(track, GRANULES, &mut bytes, 0);
        Carry {
            bytes,
            len: track.size - track.owed,
        }
    }
}
