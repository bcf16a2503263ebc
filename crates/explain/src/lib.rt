// The auditor's report: which of a key's deliveries is in force, and why each other one is not.
#![tactic(auto)]

mod walk;

ghost use Rattle.std.specs.Prelude.{◌≡◌};
ghost use Rattle.explain.specs.Explain.{answer_of, explain_answer, after_explain};

use deliveries::count;
use entry::{Refusal, is_acceptable_key};
use walk::{find_winner, write_reasons};

// Answers the place of the winning delivery of a key, counted from 0, or that the key never came,
// and writes a byte for each delivery of the list to the front of `reasons`.
pub fn explain(deliveries: &[u8], key: &[u8], reasons: &mut [u8]) -> Result<Option<usize>, Refusal>
    ensures told { answer_of result ≡ explain_answer deliveries.now key.now reasons.old }
    ensures left { reasons.new ≡ after_explain deliveries.now key.now reasons.old }
{
    let n = count(deliveries)?;
    if !is_acceptable_key(key) {
        return Err(Refusal::BadKey);
    }
    if reasons.len() < n {
        return Err(Refusal::NoRoom);
    }
    let best = find_winner(deliveries, key);
    write_reasons(deliveries, key, best, reasons);
    Ok(best.map(|winner| winner.place))
}
