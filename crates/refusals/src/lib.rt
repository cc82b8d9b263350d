// STORE 14: why a call refuses. A call answers by a `Result`, whose error is one of these. Every number stands here, and only here.
#![tactic(auto)]

ghost use Rattle.std.specs.Prelude.{◌≡◌, ◌<◌};
ghost use Rattle.refusals.specs.Reply.{refusal_number};

// Why a call refuses: each case with its number in STORE 14.1.
#[derive(Clone, Copy, PartialEq, Eq)]
pub enum Refusal {
    // D, N or the ageing rule outside its range
    Sizes = 1,
    // room too short for a fresh store
    TooShort = 2,
    // not a store
    NotAStore = 3,
    // satellite not 1 to 36
    NoSatellite = 4,
    // time of week above 604799
    TowTooLarge = 5,
    // MACK time not a subframe start
    NotAStart = 6,
    // time arithmetic refused
    TimeArithmetic = 7,
    // word not 16 bytes; COP or tag length not allowed
    NotAllowed = 8,
    // band, kind or status unknown
    UnknownCode = 9,
    // no candidate
    NoCandidate = 10,
    // given data of another length, or different from the candidate
    OtherData = 11,
    // no record of the satellite has 40
    NotEnough = 12,
    // of an input of records: a byte that is no kind of record
    UnknownKind = 13,
    // of an input of records: it ends inside a record
    CutShort = 14,
    // under rule 1, word of an earlier subframe than the current row's
    Earlier = 15,
    // COP 0, nothing added
    Dummy = 16,
    // verdict no
    VerdictNo = 17,
    // status 0 or 3, nothing added
    StatusAddsNothing = 18,
    // of reading an orbit: its IODnav differ
    IssuesDiffer = 21,
    // of reading an orbit: its word 4 names another satellite
    OtherSatellite = 22,
    // under rule 1, the age of the record that answers is not known
    AgeUnknown = 24,
    // of reading a message back: a bit behind its data is set
    PaddingSet = 26,
}

impl From<Refusal> for u8 {
    ghost from_gives = { λ why n. n ≡ refusal_number why };

    // The number of a refusal in the table.
    fn from(why: Refusal) -> u8 {
        why as u8
    }
}
