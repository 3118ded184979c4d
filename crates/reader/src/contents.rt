// What a container and its header say, read once.
ghost use Rattle.std.specs.Prelude.{◌≡◌, true, length};
ghost use Rattle.container.specs.Layout.{format_of, msg_start};
ghost use Rattle.container.specs.Grants.{header_grant};
ghost use Rattle.placement.specs.Cells.{carry_ok};

use container::{CONTAINER, Grant, read_grant, read_msgstart};

// What is read: a container of a format with its MsgStart and header grant, behind what was carried in.
#[derive(Clone, Copy)]
pub(crate) struct Contents<'a> {
    pub format: u32,
    pub msgstart: u16,
    pub grant: Grant,
    pub container: &'a [u8; CONTAINER],
    pub carry: &'a [u8],
    ghost carries: { carry_ok carry.now ≡ true },
    ghost whole: { length container.now ≡ 256 },
    ghost starts: { msgstart ≡ msg_start (format_of format) container.now },
    ghost granted: { grant ≡ header_grant (format_of format) container.now },
}

impl<'a> Contents<'a> {
    // The contents of a container of a format, behind what may be carried.
    pub(crate) fn new(format: u32, container: &'a [u8; CONTAINER], carry: &'a [u8]) -> Contents<'a>
        requires { carry_ok carry.now ≡ true }
        ensures format { result.format ≡ format }
        ensures container { result.container.now ≡ container.now }
        ensures carry { result.carry.now ≡ carry.now }
    {
        Contents {
            format,
            msgstart: read_msgstart(format, container),
            grant: read_grant(format, container),
            container,
            carry,
        }
    }
}
