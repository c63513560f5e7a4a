//! Laws of audits: the clauses are the laws, and the functions do nothing.

ghost use Rattle.byte_formats.specs.Types.{HashFunction};
ghost use Rattle.audit_stream.specs.Summaries.{AuditsAreOfSummaries};

/// The law of audits from a summary, for every hash function: the hashes that differ, whether the
/// list has the certificate's entry with its key, and so each answer but a pair of strings, follow
/// from the summary of the list. Where none of these answers applies, a pair is the answer.
pub fn law_audits_are_of_summaries()
    ensures { (h : HashFunction) → AuditsAreOfSummaries h }
{}
