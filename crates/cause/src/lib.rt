// The causes of refusal and their numbers (document 01, "Causes and places"; of document 02, K11 retires 20 and K1 adds 21).
#![tactic(auto)]

ghost use Rattle.std.specs.Prelude.{◌≡◌};
ghost use Rattle.cause.specs.Causes.{cause_number};

// Why an input is refused: one variant for each number of the table of causes, in its order.
#[derive(Clone, Copy, Debug, PartialEq, Eq)]
pub enum Cause {
    ContainerLength,
    RoomTooSmall,
    ReservedBitSet,
    HeaderGrantForm,
    StartInsideMessage,
    UnknownMessage,
    PlaceNotAllowed,
    HeadWrong,
    UnusedByteNotZero,
    GapInGroup,
    SecondMisc,
    TooManyResponses,
    GrantBesideActivation,
    MissingPool,
    BegunOverGranted,
    GrantedOverCapacity,
    BrokenRecord,
    TooLong,
    InvalidState,
    MissingGrantPool,
}

// The place of the header where the place is a granule.
pub const HEADER_PLACE: u64 = 12;

// A cause of refusal and its place.
#[derive(Clone, Copy, Debug, PartialEq, Eq)]
pub struct Fault {
    pub cause: Cause,
    pub place: u64,
}

// What a list of checks finds: nothing, or the first fault.
pub type Verdict = Result<(), Fault>;

impl Cause {
    // The fault of this cause at a place.
    pub fn at(self, place: u64) -> Fault
        ensures { result ≡ record { cause = self; place = place } }
    {
        Fault { cause: self, place }
    }
}

// The number of a cause in the table.
pub fn number_cause(cause: Cause) -> u32
    ensures { result ≡ cause_number cause }
{
    match cause {
        Cause::ContainerLength => 1,
        Cause::RoomTooSmall => 2,
        Cause::ReservedBitSet => 3,
        Cause::HeaderGrantForm => 4,
        Cause::StartInsideMessage => 5,
        Cause::UnknownMessage => 6,
        Cause::PlaceNotAllowed => 7,
        Cause::HeadWrong => 8,
        Cause::UnusedByteNotZero => 9,
        Cause::GapInGroup => 10,
        Cause::SecondMisc => 11,
        Cause::TooManyResponses => 12,
        Cause::GrantBesideActivation => 13,
        Cause::MissingPool => 14,
        Cause::BegunOverGranted => 15,
        Cause::GrantedOverCapacity => 16,
        Cause::BrokenRecord => 17,
        Cause::TooLong => 18,
        Cause::InvalidState => 19,
        Cause::MissingGrantPool => 21,
    }
}
