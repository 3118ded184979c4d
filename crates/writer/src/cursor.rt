// The writer inside a container: what is owed, by where its bytes lie.
ghost use Rattle.std.specs.Prelude.{◌≡◌, [], true, ◌+◌, ◌<◌, ◌≤◌, ◌^◌, length, take, drop};
ghost use Rattle.lists.specs.Pick.{pick};
ghost use Rattle.lists.specs.Parts.{put, pad};
ghost use Rattle.container.specs.Layout.{format_of, start};
ghost use Rattle.record.specs.Records.{first_of};
ghost use Rattle.record.specs.declared.list.First.TheVariants.{Whole};
ghost use Rattle.writer.specs.HoldingMirror.{Sane, no_group, may_by, cursor_empty, cursor_on, cursor_used, cursor_taken, cursor_first, bytes_first, cursor_next, bytes_next, cursor_at, laid_to, owed_of};

use crate::fill::fill_granule;
use crate::group::Group;
use crate::input::Input;
use container::{CONTAINER, GRANULES, WIDE, measure_granule};
use message::{count_miscs, count_responses};
use record::{First, read_record};
use slices::{byte_at, clear};

// What is owed is `left` bytes from `from` on, of the old tail or of the list; `at` bytes of the list are used, and `msgstart` is
// MsgStart so far.
#[derive(Clone, Copy)]
pub struct Cursor {
    pub tail: bool,
    pub from: usize,
    pub left: usize,
    pub at: usize,
    pub msgstart: u16,
    pub group: Group,
}

impl Cursor {
    // At the start of a container, with a tail of so many bytes owed.
    fn begin(len: usize) -> Cursor
        ensures { result ≡ record { tail = true; from = 0; left = len; at = 0; msgstart = 0; group = no_group } }
    {
        Cursor {
            tail: true,
            from: 0,
            left: len,
            at: 0,
            msgstart: 0,
            group: Group::none(),
        }
    }

    // Granule g stays empty, and zeros are written there.
    fn pass_over(self, format: u32, g: u8, container: &mut [u8; CONTAINER]) -> Cursor
        requires g_bound { g < 12 }
        requires few { (self.group.miscs ≤ 2) × (self.group.responses ≤ 4) }
        ensures cursor { result ≡ cursor_empty g self }
        ensures bytes { container.new ≡ put (start g) (pad ((format_of format).size g) []) container.old }
    {
        fill_granule(container, format, g, &[]);
        Cursor {
            group: self.group.add(g, false, 0, 0),
            ..self
        }
    }

    // The record up to end of what is left of the list starts in granule g, and what is owed stays owed.
    fn use_record(self, g: u8, end: usize, msgtype: u8) -> Cursor
        requires few { (self.group.miscs ≤ 2) × (self.group.responses ≤ 4) }
        requires end_bound { self.at + end ≤ 4096 }
        requires g_bound { (g < 12) × (self.msgstart < 2 ^ g) }
        ensures { result ≡ cursor_used g self end msgtype }
    {
        Cursor {
            at: self.at + end,
            msgstart: self.msgstart + (1 << g),
            group: self
                .group
                .add(g, true, count_miscs(msgtype), count_responses(msgtype)),
            ..self
        }
    }

    // The record from skip to end of what is left of the list starts in granule g of so many bytes: its rest is owed, unless it lies
    // beneath what is owed.
    fn take_record(self, width: usize, g: u8, skip: usize, end: usize, msgtype: u8) -> Cursor
        requires few { (self.group.miscs ≤ 2) × (self.group.responses ≤ 4) }
        requires end_bound { (self.at + end ≤ 4096) × (skip ≤ end) × (width ≤ 20) }
        requires g_bound { (g < 12) × (self.msgstart < 2 ^ g) }
        ensures { result ≡ cursor_taken width g self skip end msgtype }
    {
        let used = self.use_record(g, end, msgtype);
        if used.left > 0 {
            return used;
        }
        Cursor {
            tail: false,
            from: self.at + (skip + width),
            left: (end - skip).saturating_sub(width),
            ..used
        }
    }

    // What the bytes owed lie in.
    pub(crate) fn source<'a>(self, input: Input<'a>) -> &'a [u8]
        ensures { result.now ≡ pick self.tail input.entry.tail.now input.entry.list.now }
    {
        if self.tail { input.tail } else { input.list }
    }

    // What is owed goes on in granule g of 20 bytes.
    #[tactic(auto, using(crate::proofs::CursorCases::owed_part))]
    fn go_on(self, input: Input<'_>, g: u8, container: &mut [u8; CONTAINER]) -> Cursor
        requires g_bound { (g < 12) × ((format_of input.format).size g ≡ 20) }
        requires sane { Sane input.tail.now input.list.now g self × (0 < self.left) }
        ensures cursor { result ≡ cursor_on g self }
        ensures bytes { container.new ≡ put (start g) (pad ((format_of input.entry.format).size g) (take 20 (owed_of input.entry.tail.now input.entry.list.now self))) container.old }
    {
        let source = self.source(input);
        let part = &source[self.from..self.from + WIDE];
        fill_granule(container, input.format, g, part);
        Cursor {
            from: self.from + WIDE,
            left: self.left - WIDE,
            group: self.group.add(g, true, 0, 0),
            ..self
        }
    }

    // Whether a message of this type and op may start in granule g; where bytes are owed it lies beneath them.
    fn admits(self, input: Input<'_>, g: u8, msgtype: u8, op: u8) -> bool
        ensures { result ≡ may_by (format_of input.entry.format) input.entry.grant g self msgtype op }
    {
        let Input { format, grant, .. } = input;
        if self.left > 0 {
            return self.group.admits_beneath(format, grant, g, msgtype, op);
        }
        self.group.admits(format, grant, g, msgtype, op)
    }

    // The message from skip to end of what is left of the list starts in granule g if it may.
    fn start_message(
        self,
        input: Input<'_>,
        skip: usize,
        end: usize,
        g: u8,
        container: &mut [u8; CONTAINER],
    ) -> Cursor
        requires g_bound { g < 12 }
        requires sane { Sane input.tail.now input.list.now g self }
        requires skip_bound { (skip + 10 ≤ end) × (self.at + end ≤ length input.list.now) }
        ensures cursor { result ≡ cursor_first (format_of input.entry.format) input.entry.grant input.entry.list.now g self (Whole skip end) }
        ensures bytes { container.new ≡ put (start g) (pad ((format_of input.entry.format).size g) (bytes_first (format_of input.entry.format) input.entry.grant input.entry.list.now g self (Whole skip end))) container.old }
    {
        let from = self.at + skip;
        let msgtype = byte_at(input.list, from) % 16;
        let op = byte_at(input.list, from + 1);
        if !self.admits(input, g, msgtype, op) {
            return self.pass_over(input.format, g, container);
        }
        let width = measure_granule(input.format, g);
        let stop = (from + width).min(self.at + end);
        fill_granule(container, input.format, g, &input.list[from..stop]);
        self.take_record(width, g, skip, end, msgtype)
    }

    // Nothing is owed, or what is owed passes over granule g: the next record starts there if it may.
    fn start_record(self, input: Input<'_>, g: u8, container: &mut [u8; CONTAINER]) -> Cursor
        requires g_bound { g < 12 }
        requires sane { Sane input.tail.now input.list.now g self }
        ensures cursor { result ≡ cursor_first (format_of input.entry.format) input.entry.grant input.entry.list.now g self (first_of (drop self.at input.entry.list.now)) }
        ensures bytes { container.new ≡ put (start g) (pad ((format_of input.entry.format).size g) (bytes_first (format_of input.entry.format) input.entry.grant input.entry.list.now g self (first_of (drop self.at input.entry.list.now)))) container.old }
    {
        if let First::Whole { start, end } = read_record(&input.list[self.at..]) {
            return self.start_message(input, start, end, g, container);
        }
        self.pass_over(input.format, g, container)
    }

    // Granule g is filled.
    #[tactic(auto, unfolding(crate::specs::HoldingMirror::cursor_next, crate::specs::HoldingMirror::bytes_next))]
    fn write_granule(self, input: Input<'_>, g: u8, container: &mut [u8; CONTAINER]) -> Cursor
        requires g_bound { g < 12 }
        requires sane { Sane input.tail.now input.list.now g self }
        ensures cursor { result ≡ cursor_next (format_of input.entry.format) input.entry.grant input.entry.tail.now input.entry.list.now g self }
        ensures bytes { container.new ≡ put (start g) (pad ((format_of input.entry.format).size g) (bytes_next (format_of input.entry.format) input.entry.grant input.entry.tail.now input.entry.list.now g self)) container.old }
    {
        if self.left > 0 && measure_granule(input.format, g) == WIDE {
            return self.go_on(input, g, container);
        }
        self.start_record(input, g, container)
    }
}

// Fills all granules of a container, upwards, over zeros.
#[tactic(auto, using(crate::proofs::SaneLaws::sane_at), unfolding(crate::specs::HoldingMirror::cursor_at, crate::specs::HoldingMirror::laid_to))]
pub(crate) fn fill_granules(input: Input<'_>, container: &mut [u8; CONTAINER]) -> Cursor
    ensures cursor { result ≡ cursor_at (format_of input.entry.format) input.entry.grant input.entry.tail.now input.entry.list.now 12 }
    ensures bytes { container.new ≡ laid_to (format_of input.entry.format) input.entry.grant input.entry.tail.now input.entry.list.now 12 }
{
    clear(container);
    let mut cursor = Cursor::begin(input.tail.len());
    for g in 0..GRANULES {
        cursor = cursor.write_granule(input, g, container);
    }
    cursor
}
