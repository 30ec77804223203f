//! The lines on the steps of a push.

ghost use Rattle.std.specs.Prelude.{◌≡◌, IfOk, OnErr, codes};
ghost use Rattle.px_script.specs.PushReading.{prepare_of, push_of};

use crate::Event;
use crate::line_words::{LineWords, is_text};
use crate::push_lists::read_pushed;
use px_base::TxId;
use px_ops::Op;
use std::alloc::{AllocError, Global};

// `prepare TX NAME OLD:NEW:REF .. with KIND:HEX ..`: a transaction, a storage, and the push.
fn prepare(alloc: Global, words: &mut LineWords<'_>) -> Result<Option<Event>, AllocError>
    ensures { IfOk result (λ event. event ≡ prepare_of words.old) }
{
    let Some(number) = words.number() else {
        return Ok(None);
    };
    let Some(name) = words.name() else {
        return Ok(None);
    };
    let Some(push) = read_pushed(alloc, words)? else {
        return Ok(None);
    };
    let tx = TxId(number);
    Ok(Some(Event::Prepare { tx, name, push }))
}

/// The event of a line on a push, by its first word and those behind it. `None` where the line is
/// none of these. Takes memory for what `prepare` pushes alone.
pub fn read_push(
    alloc: Global,
    first: &[u8],
    words: &mut LineWords<'_>,
) -> Result<Option<Event>, AllocError>
    ensures event { IfOk result (λ event. event ≡ push_of first.now words.old) }
    ensures memory { OnErr result (first.now ≡ codes "prepare") }
{
    if is_text(first, b"begin") {
        return Ok(
            words
                .only_repo()
                .map(|repo| Event::Operation(Op::Begin { repo })),
        );
    }
    if is_text(first, b"prepare") {
        return prepare(alloc, words);
    }
    if is_text(first, b"commit") {
        return Ok(
            words
                .only_tx_and_name()
                .map(|(tx, name)| Event::Commit { tx, name }),
        );
    }
    if is_text(first, b"abort") {
        return Ok(
            words
                .only_tx_and_name()
                .map(|(tx, name)| Event::Abort { tx, name }),
        );
    }
    if is_text(first, b"finish") {
        return Ok(
            words
                .only_tx()
                .map(|tx| Event::Operation(Op::Finish { tx })),
        );
    }
    Ok(None)
}
