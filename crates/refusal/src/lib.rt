// Why a call turns its arguments back. Across C a refusal is its number, and 0 is none.
#![tactic(auto)]

ghost use Rattle.std.specs.Prelude.{◌≡◌};
ghost use Rattle.refusal.specs.Refusals.{number_of, refused};

#[derive(Clone, Copy, PartialEq, Eq, Debug)]
pub enum Refusal {
    // volumes, middles and marks differ in count
    CountsDiffer,
    NoElements,
    // more elements, triangles or nodes than the domain has
    TooMany,
    VolumeOutside,
    // the share of the volume to keep is not above 0 and below 1
    ShareOutside,
    NoRounds,
    // what is held solid leaves no room to come down to the share
    NoRoom,
    // a radius, or a finite depth above 0, outside the domain
    DistanceOutside,
    PointOutside,
    // more than three
    TooManyPlanes,
    PlaneOutside,
    PlanesNotSquare,
    TableTooLarge,
    // a lent list is too short
    ListTooShort,
    // before any record
    Stopped,
    // not one an element
    EnergiesDiffer,
    EnergyNotFinite,
    SolverFailed,
    // the solid part's work is not above 0
    NoWork,
    // a call out of turn, or a state whose numbers fail their test
    OutOfTurn,
    // a triangle names a node that is not there
    NodeMissing,
    StripMalformed,
    // no level has the stiffness
    NoLevel,
    // more than sixteen jobs or none, or a share, a limit or a job's number out of range
    ShiftOutside,
    // no job waits, or the shift is used up
    NoneWaiting,
}

impl From<Refusal> for u32 {
    ghost from_gives = { λ r n. n ≡ number_of r };

    fn from(r: Refusal) -> u32
        ensures { result ≡ number_of r }
    {
        match r {
            Refusal::CountsDiffer => 1,
            Refusal::NoElements => 2,
            Refusal::TooMany => 3,
            Refusal::VolumeOutside => 4,
            Refusal::ShareOutside => 5,
            Refusal::NoRounds => 6,
            Refusal::NoRoom => 7,
            Refusal::DistanceOutside => 8,
            Refusal::PointOutside => 9,
            Refusal::TooManyPlanes => 10,
            Refusal::PlaneOutside => 11,
            Refusal::PlanesNotSquare => 12,
            Refusal::TableTooLarge => 13,
            Refusal::ListTooShort => 14,
            Refusal::Stopped => 15,
            Refusal::EnergiesDiffer => 16,
            Refusal::EnergyNotFinite => 17,
            Refusal::SolverFailed => 18,
            Refusal::NoWork => 19,
            Refusal::OutOfTurn => 20,
            Refusal::NodeMissing => 21,
            Refusal::StripMalformed => 22,
            Refusal::NoLevel => 29,
            Refusal::ShiftOutside => 30,
            Refusal::NoneWaiting => 31,
        }
    }
}

// The number of what a call returns: 0 where it is not refused.
// Stays a number: it is what crosses to C.
pub fn refused(outcome: Result<(), Refusal>) -> u32
    ensures { result ≡ refused outcome }
{
    match outcome {
        Ok(()) => 0,
        Err(r) => u32::from(r),
    }
}
