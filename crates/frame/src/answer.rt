// What the reader answers.
use entry::EntryAt;
use wire::Span;

// A message as it stands in its frame: where its key and its value are.
#[derive(Clone, Copy, Debug, PartialEq, Eq)]
pub enum Message {
    Put { key: Span, value: Span },
    Get { key: Span },
    Del { key: Span },
    Repl(EntryAt),
    Ok,
    Value(Span),
    NotFound,
    // the number of a refusal, 1 to 255
    Err(u8),
}
