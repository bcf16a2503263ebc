// The C interface of the auditor's report: each function calls the one that is proved below, and
// packs the answer.
#![tactic(auto)]

ghost use Rattle.std.specs.Prelude.{◌≡◌, ◌≤◌};
ghost use Rattle.deliveries.specs.List.{count_answer};
ghost use Rattle.explain.specs.Explain.{answer_of, explain_answer, after_explain};
ghost use Rattle.capi_audit.specs.Audit.{count_word, explained_given, explained_word};

use capi_words::counted;
use entry::Refusal;

// The winner's place where no delivery is of the key.
const NO_DELIVERY: usize = 65_535;

// How many deliveries a list has.
#[unsafe(no_mangle)]
pub extern "C" fn sp_deliveries(list: &[u8]) -> u32
    ensures { result ≡ count_word (count_answer list.now) }
{
    counted(deliveries::count(list))
}

fn explained(answer: Result<Option<usize>, Refusal>) -> u32
    requires { explained_given (answer_of answer) ≤ 65535 }
    ensures { result ≡ explained_word (answer_of answer) }
{
    counted(answer.map(|winner| winner.unwrap_or(NO_DELIVERY)))
}

// Which delivery of a key is in force, and why each other one is not.
#[unsafe(no_mangle)]
pub extern "C" fn sp_explain(list: &[u8], key: &[u8], reasons: &mut [u8]) -> u32
    ensures told { result ≡ explained_word (explain_answer list.now key.now reasons.old) }
    ensures left { reasons.new ≡ after_explain list.now key.now reasons.old }
{
    explained(explain::explain(list, key, reasons))
}
