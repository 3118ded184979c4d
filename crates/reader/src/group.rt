// The groups and the header beside the granules, judged by marks: causes 10 to 13.
ghost use Rattle.std.specs.Prelude.{◌≡◌, not, eqb};
ghost use Rattle.cause.specs.Checks.{first_fault};
ghost use Rattle.reader.specs.TrackingMirror.{group_by, mark_checks, activation_marks};

use cause::{Cause, Verdict};

// The marks of a container, one a granule.
pub(crate) const MARKS: usize = 12;

// The groups of a container.
const GROUPS: usize = 4;

// Group q by the marks of its granules.
fn judge_group(q: u64, a: u8, b: u8, c: u8) -> Verdict
    ensures { result ≡ first_fault (group_by q a b c) }
{
    if a % 2 < b % 2 || b % 2 < c % 2 {
        return Err(Cause::GapInGroup.at(q));
    }
    let sum = a as u32 + (b as u32 + c as u32);
    if 1 < sum / 32 % 4 {
        return Err(Cause::SecondMisc.at(q));
    }
    if 4 < sum / 4 % 8 {
        return Err(Cause::TooManyResponses.at(q));
    }
    Ok(())
}

// All groups, upwards.
pub fn judge_groups(marks: [u8; MARKS]) -> Verdict
    ensures { result ≡ first_fault (mark_checks 4 0 marks) }
{
    for q in 0..GROUPS {
        judge_group(q as u64, marks[3 * q], marks[3 * q + 1], marks[3 * q + 2])?;
    }
    Ok(())
}

// Whether an Activation starts in a container.
pub fn has_activation(marks: [u8; MARKS]) -> bool
    ensures { result ≡ not (eqb (activation_marks 12 0 marks) 0) }
{
    marks.iter().any(|mark| 128 <= *mark)
}
