// A whole container judged: causes 3 to 13.
ghost use Rattle.std.specs.Prelude.{◌≡◌};
ghost use Rattle.container.specs.Layout.{format_of};
ghost use Rattle.cause.specs.Checks.{first_fault};
ghost use Rattle.placement.specs.Checking.{header_checks};
ghost use Rattle.reader.specs.TrackingMirror.{looked, behind_granules};

use crate::contents::Contents;
use crate::group::{MARKS, has_activation, judge_groups};
use crate::track::Track;
use cause::{Cause, Fault, Verdict};
use container::{GRANULES, allows_plane, has_counts, keeps_reserved, starts_at};

impl Contents<'_> {
    // The header: causes 3 and 4.
    fn judge_header(self) -> Verdict
        ensures { result ≡ first_fault (header_checks (format_of self.entry.format) self.entry.container.now) }
    {
        let container = self.container;
        if !keeps_reserved(self.format, container) {
            return Err(Cause::ReservedBitSet.at(0));
        }
        if !allows_plane(self.grant) {
            return Err(Cause::HeaderGrantForm.at(0));
        }
        Ok(())
    }

    // The groups and the header beside an Activation, by the marks of the granules: causes 10 to 13.
    fn judge_marks(self, marks: [u8; MARKS]) -> Verdict
        ensures { result ≡ first_fault (behind_granules self.entry.grant marks) }
    {
        judge_groups(marks)?;
        if has_counts(self.grant) && has_activation(marks) {
            return Err(Cause::GrantBesideActivation.at(0));
        }
        Ok(())
    }

    // The message in progress behind a container, or the first fault of its header, its granules upwards, and their groups.
    pub(crate) fn judge_container(self) -> Result<Track, Fault>
        ensures { result ≡ looked self.entry.format self.entry.container.now self.entry.carry.now }
    {
        self.judge_header()?;
        let mut marks = [0u8; MARKS];
        let mut track = Track::carried(self.carry);
        for g in 0..GRANULES {
            let judged = self.judge_cell(track.owed, g);
            let granule = judged.map_err(|cause| cause.at(g as u64))?;
            marks[g as usize] = granule.mark;
            track = track.follow(self.format, g, starts_at(self.msgstart, g), granule.size);
        }
        self.judge_marks(marks)?;
        Ok(track)
    }
}
