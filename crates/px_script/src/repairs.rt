//! The lines on reads and on repairs.

ghost use Rattle.std.specs.Prelude.{◌≡◌};
ghost use Rattle.px_script.specs.RepairReading.{fence_of, repair_of};

use crate::Event;
use crate::line_words::{LineWords, is_text};
use px_base::RepoId;
use px_ops::Op;

// `fence NAME REPO LEASE`
fn fence(words: &mut LineWords<'_>) -> Option<Event>
    ensures { result ≡ fence_of words.old }
{
    let name = words.name()?;
    let repo = RepoId(words.small()?);
    let lease = words.lease()?;
    words.end()?;
    Some(Event::Fence { name, repo, lease })
}

/// The event of a line on reads and repairs, by its first word and those behind it. `None` where
/// the line is none of these. Takes no memory.
pub fn read_repair(first: &[u8], words: &mut LineWords<'_>) -> Option<Event>
    ensures { result ≡ repair_of first.now words.old }
{
    if is_text(first, b"read") {
        return words
            .only_repo()
            .map(|repo| Event::Operation(Op::RouteRead { repo }));
    }
    if is_text(first, b"accept") {
        return words
            .only_repo_and_name()
            .map(|(repo, name)| Event::AcceptBegin { repo, name });
    }
    if is_text(first, b"settle") {
        return words
            .only_repo_and_name()
            .map(|(repo, name)| Event::SettleBegin { repo, name });
    }
    if is_text(first, b"fence") {
        return fence(words);
    }
    if is_text(first, b"accepted") {
        return words
            .only_repo_name_and_lease()
            .map(|(repo, name, lease)| Event::Accept { repo, name, lease });
    }
    if is_text(first, b"settled") {
        return words
            .only_repo_name_and_lease()
            .map(|(repo, name, lease)| Event::Settle { repo, name, lease });
    }
    None
}
