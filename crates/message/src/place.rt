// Where a message may start, and what it counts for in its group.
ghost use Rattle.std.specs.Prelude.{◌≡◌};
ghost use Rattle.container.specs.Layout.{format_of};
ghost use Rattle.message.specs.Places.{fits_in, first_only, placed_by, responses_by, miscs_by};

use crate::codes::{LINK_STATUS, MISC_U, RESP, RESP2};
use crate::heads::{is_misc, measure_code};
use container::{WIDE, measure_granule};

// Whether granule g takes a message of this type and op by its size.
fn fits_in(format: u32, g: u8, msgtype: u8, op: u8) -> bool
    ensures { result ≡ fits_in (format_of format) g msgtype op }
{
    let size = measure_granule(format, g);
    size == WIDE || (msgtype == RESP || msgtype == MISC_U) && measure_code(msgtype, op) <= size
}

// Whether the rule that LinkStatus goes only in G0 is kept.
fn keeps_first(g: u8, msgtype: u8, op: u8) -> bool
    ensures { result ≡ first_only g msgtype op }
{
    !is_misc(msgtype, op, LINK_STATUS) || g == 0
}

// Whether a message of this type and op may start at granule g.
pub fn may_start(format: u32, g: u8, msgtype: u8, op: u8) -> bool
    ensures { result ≡ placed_by (format_of format) g msgtype op }
{
    fits_in(format, g, msgtype, op) && keeps_first(g, msgtype, op)
}

// The responses that a message of this type counts for.
pub fn count_responses(msgtype: u8) -> u32
    ensures { result ≡ responses_by msgtype }
{
    match msgtype {
        RESP => 1,
        RESP2 => 2,
        0..=255 => 0,
    }
}

// The MiscU that a message of this type counts for.
pub fn count_miscs(msgtype: u8) -> u32
    ensures { result ≡ miscs_by msgtype }
{
    u32::from(msgtype == MISC_U)
}
