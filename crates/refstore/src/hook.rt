//! The text that Git's reference-transaction hook is given, and the vote on it.

ghost use Rattle.std.specs.Prelude.{◌≡◌, ◌++◌, List, ℕ, IfOk, OnOk, OnErr};
ghost use Rattle.sha1.specs.Sha1.{Holds};
ghost use Rattle.refstore.specs.Hook.{line_of, text_of, vote_on};

use px_base::{Bytes, Hash, Update};
use sha1::Sha1;
use std::alloc::{AllocError, Global};

/// The text that the reference-transaction hook is given of these updates (githooks(5)): a line each,
/// in their order, of the old object name, a space, the new one, a space, the name of the reference
/// and a line feed. A line takes 83 bytes beside the name.
pub fn hook_text(alloc: Global, updates: &[Update]) -> Result<Bytes, AllocError>
    ensures { IfOk result (λ text. text ≡ text_of updates.now) }
{
    let mut text = Bytes::new(alloc);
    for update in updates {
        push_line(&mut text, update)?;
    }
    Ok(text)
}

// Adds the line of an update.
fn push_line(text: &mut Bytes, update: &Update) -> Result<(), AllocError>
    ensures { OnOk result (text.new ≡ text.old ++ line_of update.now) }
{
    text.extend_from_slice(&update.old.text())?;
    text.push(b' ')?;
    text.extend_from_slice(&update.new.text())?;
    text.push(b' ')?;
    text.extend_from_slice(update.name.as_bytes())?;
    text.push(b'\n')
}

/// The vote on these updates: the SHA-1 (FIPS 180-4) of their hook text, in both phases. The text is
/// never made: its pieces are hashed one after the other. Takes no memory.
#[tactic(auto, unfolding(crate::specs::Hook::vote_on))]
pub fn vote_of(updates: &[Update]) -> Hash
    ensures { result ≡ vote_on updates.now }
{
    let mut hasher = Sha1::new();
    for update in updates {
        feed_line(&mut hasher, update);
    }
    Hash(hasher.finalize())
}

// Hashes the line of an update behind what was hashed before.
fn feed_line(hasher: &mut Sha1, update: &Update)
    ensures { (before : List ℕ) → Holds hasher.old before
        → Holds hasher.new (before ++ line_of update.now) }
{
    hasher.update(&update.old.text());
    hasher.update(b" ");
    hasher.update(&update.new.text());
    hasher.update(b" ");
    hasher.update(update.name.as_bytes());
    hasher.update(b"\n");
}
