// Why a report, a line of the listing or an outlook comes back.
ghost use Rattle.std.specs.Prelude.{◌≡◌};
ghost use Rattle.analysis.specs.Refusals.{report_refusal, listing_refusal};

#[derive(Clone, Copy, PartialEq, Eq, Debug)]
pub enum ReportRefusal {
    // 13: the buffer has no room for a record of each pair; their count is told.
    TooShort { pairs: usize },
}

#[derive(Clone, Copy, PartialEq, Eq, Debug)]
pub enum ListingRefusal {
    // 17: the buffer is shorter than any line may need.
    TooShort,
    // 17: the line is beyond the last.
    BeyondLast,
}

#[derive(Clone, Copy, PartialEq, Eq, Debug)]
pub enum JudgeRefusal {
    // The two events are no pair.
    NotPair,
    // They are, and always come as drawn.
    Fixed,
}

impl ReportRefusal {
    // By hand here and below: the project gives each refusal its number, and two may share one.
    pub fn number(self) -> u8
        ensures { result ≡ (report_refusal self).0 }
    {
        match self {
            ReportRefusal::TooShort { .. } => 13,
        }
    }
}

impl ListingRefusal {
    pub fn number(self) -> u8
        ensures { result ≡ (listing_refusal self).0 }
    {
        match self {
            ListingRefusal::TooShort => 17,
            ListingRefusal::BeyondLast => 17,
        }
    }
}
