// What starts in a container.
ghost use Rattle.std.specs.Prelude.{◌≡◌, ◌<◌};
ghost use Rattle.lists.specs.Parts.{IsBytes};
ghost use Rattle.pools.specs.TalliesMirror.{started_at};

use container::{CONTAINER, locate_granule, start_bit};

// A container and its MsgStart: what starts in it.
#[derive(Clone, Copy)]
pub(crate) struct Starts<'a> {
    pub container: &'a [u8; CONTAINER],
    pub msgstart: u16,
    ghost are_bytes: { IsBytes container.now },
}

impl Starts<'_> {
    // Byte 0 of what starts in granule g, 0 where nothing does.
    pub(crate) fn read_start(self, g: u8) -> u8
        requires { g < 12 }
        ensures { result ≡ started_at self.entry.container.now self.entry.msgstart g }
    {
        self.container[locate_granule(g)] * start_bit(self.msgstart, g)
    }
}
