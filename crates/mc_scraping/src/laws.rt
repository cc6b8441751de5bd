//! What it means to be the first that gives its place.
ghost use Rattle.mc_scraping.specs.Yielding.{FreePlacesGoFirst, WhoIsAnsweredGoesLast, WhoIsNewStays, WhoWasIdleLongestGoes};

/// Which place is given first: a free one, if there is one; or else, of those whose connections are
/// being sent nothing, that of the one that was idle longest; only where all are being answered or
/// began just now that of one that is being answered, of these the one that was idle longest; and
/// that of one that began just now only where all did. How long a connection was idle `holder_of`
/// says: since it last took a part of an answer, or else since it began.
pub fn who_was_idle_longest_gives_its_place()
    ensures free { FreePlacesGoFirst }
    ensures idle { WhoWasIdleLongestGoes }
    ensures answered { WhoIsAnsweredGoesLast }
    ensures new { WhoIsNewStays }
{}
