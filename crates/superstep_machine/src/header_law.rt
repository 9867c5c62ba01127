//! The words of a header give it back.

ghost use Rattle.std.specs.Prelude.{◌≡◌, ◌∷◌, []};
ghost use Rattle.superstep_machine.specs.HeaderWords.{HeadersAreGivenBack, blank_header, header_words, read_header};

/// Every header whose numbers have 32 bits, and whose processor's index has 64, is given back by its
/// four words; four zeros are the header that says nothing.
pub fn headers_are_given_back()
    // A header whose key has numbers of 32 bits, and a processor's index of 64, is given back by its four words.
    ensures back { HeadersAreGivenBack }
    // Four zeros are the header that says nothing: no key, no mark, no active processor, no puts.
    ensures zeros { read_header (0 ∷ 0 ∷ 0 ∷ 0 ∷ []) ≡ blank_header }
    // The words of the header that says nothing are four zeros.
    ensures blank { header_words blank_header ≡ 0 ∷ 0 ∷ 0 ∷ 0 ∷ [] }
{}
