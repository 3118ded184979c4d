// The present group of three granules, by counts.
ghost use Rattle.std.specs.Prelude.{◌≡◌, ◌&&◌, ◌+◌, ◌≤◌, leb};
ghost use Rattle.container.specs.Layout.{format_of};
ghost use Rattle.message.specs.Places.{miscs_by, responses_by};
ghost use Rattle.writer.specs.HoldingMirror.{no_group, group_next, legal_by, beneath_by};

use container::{Grant, has_counts};
use message::{ACTIVATION, count_miscs, count_responses, is_misc, may_start};

// Whether all its cells so far are populated, and how many MiscU and responses start in them.
#[derive(Clone, Copy)]
pub struct Group {
    pub full: bool,
    pub miscs: u32,
    pub responses: u32,
}

impl Group {
    // A group with no cell yet.
    pub fn none() -> Group
        ensures { result ≡ no_group }
    {
        Group {
            full: true,
            miscs: 0,
            responses: 0,
        }
    }

    // The group behind the cell of granule g, with so many MiscU and responses starting there.
    pub(crate) fn add(self, g: u8, populated: bool, miscs: u32, responses: u32) -> Group
        requires { (self.miscs ≤ 2) × (self.responses ≤ 4) × (miscs ≤ 1) × (responses ≤ 2) }
        ensures { result ≡ group_next g self populated miscs responses }
    {
        if g % 3 == 2 {
            return Group::none();
        }
        Group {
            full: self.full && populated,
            miscs: self.miscs + miscs,
            responses: self.responses + responses,
        }
    }

    // Whether a message of this type may start behind the cells so far.
    fn takes(self, msgtype: u8) -> bool
        ensures { result ≡ (self.full && (leb (self.miscs + miscs_by msgtype) 1 && leb (self.responses + responses_by msgtype) 4)) }
    {
        self.full
            && self.miscs <= 1 - count_miscs(msgtype)
            && self.responses <= 4 - count_responses(msgtype)
    }

    // Whether a message of this type and op may start at granule g, beside this header grant.
    pub(crate) fn admits(self, format: u32, grant: Grant, g: u8, msgtype: u8, op: u8) -> bool
        ensures { result ≡ legal_by (format_of format) grant g self msgtype op }
    {
        may_start(format, g, msgtype, op)
            && !(is_misc(msgtype, op, ACTIVATION) && has_counts(grant))
            && self.takes(msgtype)
    }

    // Whether a message of this type and op may lie in granule g beneath what is owed: an Activation never does.
    pub(crate) fn admits_beneath(
        self,
        format: u32,
        grant: Grant,
        g: u8,
        msgtype: u8,
        op: u8,
    ) -> bool
        ensures { result ≡ beneath_by (format_of format) grant g self msgtype op }
    {
        !is_misc(msgtype, op, ACTIVATION) && self.admits(format, grant, g, msgtype, op)
    }
}
