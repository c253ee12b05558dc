// The refusals of documents 01 and 02, and 30, which is ours, by name, and their numbers.
ghost use Rattle.std.specs.Prelude.{◌≡◌};
ghost use Rattle.spec.specs.Refusals.{number_of, answer_number};

// Why an operation turns something down. Which of several reasons is told is said by each operation's definition, as the first number that
// applies. 7, which carries a condition, is the crate `consistency`'s. (8 is no longer given, and is not used again.)
#[derive(Clone, Copy, Debug, PartialEq, Eq)]
pub enum Refusal {
    // Reading a specification; Limits, Order and Ranges begin every operation that is given one.
    Map = 1,
    Length = 2,
    Limits = 3,
    Order = 4,
    Ranges = 24,
    // Consistency, schedules for k reports, the test; each begins with TwoRanges, after those above.
    TwoRanges = 25,
    RateAbsent = 5,
    NoSchedule = 6,
    NotPassed = 9,
    // The even plan; the reports of a plan.
    NoEvenPlan = 10,
    NotProper = 11,
    // Checking a cycle; reading and writing one, and its normal form, begin with Count too.
    Count = 12,
    Gap = 13,
    Size = 14,
    TooFull = 15,
    TooThin = 16,
    // Checking a cycle whose reports may be late, before Count.
    TooLate = 26,
    // Reading and writing a cycle file; its normal form gets NoRoom too.
    PairMap = 17,
    Cut = 18,
    NotLeftOut = 19,
    NoRoom = 20,
    BytesOver = 21,
    // An offer to a meter, beside Gap, Size and TooFull.
    NoPlace = 22,
    // What lies between two minutes of a plan.
    Backwards = 23,
    // A week table, and a calendar minute of one.
    WeekTable = 27,
    Closed = 28,
    // Which of two dated cycle files is in force, beside the numbers of reading one.
    SameDay = 29,
    // The box plan.
    NoBoxPlan = 30,
}

impl Refusal {
    // The number that the documents give it.
    pub fn number(self) -> u32
        ensures { result ≡ number_of self }
    {
        self as u32
    }
}

// 0, or the number of the refusal: what C is told.
pub fn answer_number<T: Drop>(answer: Result<T, Refusal>) -> u32
    ensures { result ≡ answer_number answer }
{
    match answer {
        Ok(_) => 0,
        Err(refusal) => refusal.number(),
    }
}
