// The message in progress, by numbers.
ghost use Rattle.std.specs.Prelude.{◌≡◌, ◌<◌, ◌-◌};
ghost use Rattle.lists.specs.Pick.{pick};
ghost use Rattle.container.specs.Layout.{format_of, wide};
ghost use Rattle.reader.specs.TrackingMirror.{track_of, track_by, track_after};

use crate::contents::Contents;
use container::{WIDE, locate_granule, measure_granule, starts_at};
use message::measure_message;

// What is owed of it, its size, the granule from which on it is read, and how many bytes of the old carry belong to it. No message is in
// progress where nothing is owed.
#[derive(Clone, Copy, Debug, PartialEq, Eq)]
pub struct Track {
    pub owed: usize,
    pub size: usize,
    pub from: usize,
    pub kept: usize,
}

impl Track {
    // A message that is carried in.
    pub fn carried(carry: &[u8]) -> Track
        ensures { result ≡ track_of carry.now }
    {
        let size = measure_message(carry);
        Track {
            owed: size.saturating_sub(carry.len()),
            size,
            from: 0,
            kept: carry.len(),
        }
    }

    // Granule g of the message in progress is read, if it is a wide one.
    fn advance(self, format: u32, g: u8) -> Track
        ensures { result ≡ pick (wide (format_of format) g) (record { owed = self.owed - 20; size = self.size; from = self.from; kept = self.kept }) self }
    {
        if measure_granule(format, g) != WIDE {
            return self;
        }
        Track {
            owed: self.owed.saturating_sub(WIDE),
            ..self
        }
    }

    // A message of this size starts in granule g, and may go on if that is a wide one.
    fn start(self, format: u32, g: u8, size: usize) -> Track
        ensures { result ≡ pick (wide (format_of format) g) (record { owed = size - 20; size = size; from = g; kept = 0 }) self }
    {
        if measure_granule(format, g) != WIDE {
            return self;
        }
        Track {
            owed: size.saturating_sub(WIDE),
            size,
            from: g as usize,
            kept: 0,
        }
    }

    // The message in progress after granule g, where a message of this size starts if `start` says so.
    pub fn follow(self, format: u32, g: u8, start: bool, size: usize) -> Track
        ensures { result ≡ track_by (format_of format) g start size self }
    {
        if 0 < self.owed {
            return self.advance(format, g);
        }
        if start {
            return self.start(format, g, size);
        }
        self
    }

    // The message in progress after granule g.
    pub(crate) fn pass(self, contents: Contents<'_>, g: u8) -> Track
        requires { g < 12 }
        ensures { result ≡ track_after (format_of contents.entry.format) contents.entry.container.now contents.entry.msgstart g self }
    {
        let format = contents.format;
        if starts_at(contents.msgstart, g) {
            let container = contents.container;
            let a = locate_granule(g);
            let end = a + measure_granule(format, g);
            return self.follow(format, g, true, measure_message(&container[a..end]));
        }
        self.follow(format, g, false, 0)
    }
}
