//! Laws of the words that workers send.

ghost use Rattle.exchange_words.specs.Laws.{AccessesBoundWords};

/// All words that the workers send in all exchanges of a run up to its verdict, however many they are and by whichever lawful map,
/// are at most what its accesses take on one memory: two for each active processor of a private read, two for each worker of a
/// uniform read, and three for each active processor of a private write and for a uniform write, or four where the rule is sum.
/// This holds for every code, well formed or not, and whatever the verdict.
pub fn accesses_bound_words()
    // For every code and map, p workers send up to a verdict at most 2 words per active reader, 2p per uniform read,
    // and 3 per writer, 4 under sum.
    ensures bound { AccessesBoundWords }
{}
