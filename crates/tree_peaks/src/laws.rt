//! Laws of peaks: the clauses are the laws, and the functions do nothing.

ghost use Rattle.byte_formats.specs.Types.{HashFunction};
ghost use Rattle.tree_peaks.specs.PeakLaws.{ArePeaks, PeaksGiveRoot, PeaksTakeLeaves};

/// The law of peaks, for every hash function: of no leaves there are none; of more they are the
/// root of the first ones, so many as the largest power of two that is not above their number, and
/// then the peaks of the rest. There are as many as the number has ones in binary, and they give
/// the root of the list (RFC 9162, section 2.1.1).
pub fn law_peaks_give_the_root()
    ensures peaks { (h : HashFunction) → ArePeaks h }
    ensures root { (h : HashFunction) → PeaksGiveRoot h }
{}

/// The law of lists that grow, for every hash function: where a state has the size and the peaks of
/// a list, the state with more leaves has those of the list with these leaves after its own.
pub fn law_peaks_take_leaves()
    ensures { (h : HashFunction) → PeaksTakeLeaves h }
{}
