// One granule judged: causes 5 to 9.
ghost use Rattle.std.specs.Prelude.{◌≡◌, true, false, ◌&&◌, ◌<◌, length, ltb, eqb};
ghost use Rattle.container.specs.Layout.{format_of, wide, bit, granule};
ghost use Rattle.reader.specs.TrackingMirror.{cell_from, cell_answer, start_mark};

use crate::contents::Contents;
use cause::Cause;
use container::{WIDE, locate_granule, measure_granule, starts_at};
use message::{
    ACTIVATION, count_miscs, count_responses, is_misc, keeps_bytes, keeps_grant, may_start,
    measure_code,
};
use slices::{byte_at, is_zero, is_zero_from};

// A granule that is judged: the mark that its group and the header are judged by, and the size of the message that starts, 0 for none.
#[derive(Clone, Copy, Debug, PartialEq, Eq)]
pub struct Granule {
    pub mark: u8,
    pub size: usize,
}

// The mark of a granule where a message of this type and op starts.
fn mark_start(msgtype: u8, op: u8) -> u8
    ensures { result ≡ start_mark msgtype op }
{
    let counts = 1 + 4 * count_responses(msgtype) + 32 * count_miscs(msgtype);
    if is_misc(msgtype, op, ACTIVATION) {
        return (counts + 128) as u8;
    }
    counts as u8
}

// A granule where a message starts and none goes on.
fn judge_start(format: u32, g: u8, part: &[u8]) -> Result<Granule, Cause>
    requires { (g < 12) × (length part.now ≡ (format_of format).size g) }
    ensures { result ≡ cell_answer (format_of format) g (cell_from false true part.now) }
{
    let byte0 = byte_at(part, 0);
    let op = byte_at(part, 1);
    let msgtype = byte0 % 16;
    let size = measure_code(msgtype, op);
    if size == 0 {
        return Err(Cause::UnknownMessage);
    }
    if !may_start(format, g, msgtype, op) {
        return Err(Cause::PlaceNotAllowed);
    }
    if !keeps_bytes(byte0, op, byte_at(part, 2)) || !keeps_grant(msgtype, op, part) {
        return Err(Cause::HeadWrong);
    }
    if !is_zero_from(part, size) {
        return Err(Cause::UnusedByteNotZero);
    }
    Ok(Granule {
        mark: mark_start(msgtype, op),
        size,
    })
}

// A granule of these bytes.
fn judge_part(format: u32, g: u8, on: bool, start: bool, part: &[u8]) -> Result<Granule, Cause>
    requires g_bound { (g < 12) × (length part.now ≡ (format_of format).size g) }
    requires g_value { on ≡ true → (format_of format).size g ≡ 20 }
    ensures { result ≡ cell_answer (format_of format) g (cell_from on start part.now) }
{
    if on {
        if start {
            return Err(Cause::StartInsideMessage);
        }
        return Ok(Granule { mark: 1, size: 0 });
    }
    if start {
        return judge_start(format, g, part);
    }
    if is_zero(part) {
        return Ok(Granule { mark: 0, size: 0 });
    }
    Err(Cause::UnusedByteNotZero)
}

// Whether a message of which so much is owed goes on in a granule of this size.
fn goes_on(size: usize, owed: usize) -> bool
    ensures { result ≡ (ltb 0 owed && eqb size 20) }
{
    0 < owed && size == WIDE
}

impl Contents<'_> {
    // Granule g of a container, with so many bytes owed of the message in progress.
    pub(crate) fn judge_cell(self, owed: usize, g: u8) -> Result<Granule, Cause>
        requires { g < 12 }
        ensures { result ≡ cell_answer (format_of self.entry.format) g (cell_from (ltb 0 owed && wide (format_of self.entry.format) g) (bit self.entry.msgstart g) (granule (format_of self.entry.format) g self.entry.container.now)) }
    {
        let format = self.format;
        let container = self.container;
        let size = measure_granule(format, g);
        let a = locate_granule(g);
        let end = a + size;
        let on = goes_on(size, owed);
        judge_part(
            format,
            g,
            on,
            starts_at(self.msgstart, g),
            &container[a..end],
        )
    }
}
