//! The main theorem of versions, its parts, and worked examples: each function's contract is proved, and its body does
//! nothing.

ghost use Rattle.ul_version.specs.Headline.{VersionsAreExact};
ghost use Rattle.ul_version.specs.Laws.{IsOrder, ReadIsSpelled, ReadIsVersion, SpelledIsRead, EarlierIsLongest, TextIsPlain, TextReads, TextTells, TiesAreZeros};
ghost use Rattle.ul_version.specs.Vectors.{NoReadings, NormalTexts, Orders, Readings};

/// The main theorem: reading is PEP 440's grammar with the longest parts, the normal text reads back and tells versions
/// apart, the order is total, and above each version there is a greater one.
pub fn versions_are_exact()
    ensures { VersionsAreExact }
{}

/// The part of the main theorem on the order.
pub fn order_is_total()
    ensures order { IsOrder }
    ensures ties { TiesAreZeros }
{}

/// The part of the main theorem on normal texts.
pub fn text_reads_back()
    ensures reads { TextReads }
    ensures tells { TextTells }
    ensures plain { TextIsPlain }
{}

/// The part of the main theorem on reading.
pub fn read_is_spelled()
    ensures spelled { ReadIsSpelled }
    ensures read { SpelledIsRead }
    ensures longest { EarlierIsLongest }
    ensures version { ReadIsVersion }
{}

/// Worked readings, texts without a reading, versions in order, and normal texts.
pub fn examples()
    ensures readings { Readings }
    ensures no_readings { NoReadings }
    ensures orders { Orders }
    ensures texts { NormalTexts }
{}
