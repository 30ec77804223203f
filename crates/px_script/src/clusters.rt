//! The lines on storages and repositories.

ghost use Rattle.std.specs.Prelude.{◌≡◌, IfOk, OnErr, codes};
ghost use Rattle.px_script.specs.ClusterReading.{cluster_of, create_of, enrol_of, make_of, refs_of};
ghost use Rattle.px_script.specs.ClusterReading.{storage_of, up_or_down_of};

use crate::Event;
use crate::line_words::{LineWords, is_text};
use px_base::RepoId;
use px_ops::Op;
use std::alloc::{AllocError, Global};

// `storage VIRTUAL NAME`
fn storage(words: &mut LineWords<'_>) -> Option<Event>
    ensures { result ≡ storage_of words.old }
{
    let virt = words.name()?;
    let name = words.name()?;
    words.end()?;
    Some(Event::Operation(Op::Admit { virt, name }))
}

// `health NAME up` or `health NAME down`
fn health(words: &mut LineWords<'_>) -> Option<Event>
    ensures { result ≡ up_or_down_of words.old }
{
    let name = words.name()?;
    let up = words.health()?;
    words.end()?;
    Some(Event::Health { name, up })
}

// `create VIRTUAL PATH FACTOR`
fn create(alloc: Global, words: &mut LineWords<'_>) -> Result<Option<Event>, AllocError>
    ensures { IfOk result (λ event. event ≡ create_of words.old) }
{
    let Some(virt) = words.name() else {
        return Ok(None);
    };
    let Some(path) = words.path(alloc)? else {
        return Ok(None);
    };
    let Some(factor) = words.small() else {
        return Ok(None);
    };
    if words.end().is_none() {
        return Ok(None);
    }
    Ok(Some(Event::Operation(Op::Create { virt, path, factor })))
}

// `make NAME REPO LEASE`
fn make(words: &mut LineWords<'_>) -> Option<Event>
    ensures { result ≡ make_of words.old }
{
    let name = words.name()?;
    let repo = RepoId(words.small()?);
    let lease = words.lease()?;
    words.end()?;
    Some(Event::Make { name, repo, lease })
}

// `enrol REPO NAME LEASE`
fn enrol(words: &mut LineWords<'_>) -> Option<Event>
    ensures { result ≡ enrol_of words.old }
{
    let repo = RepoId(words.small()?);
    let name = words.name()?;
    let lease = words.lease()?;
    words.end()?;
    Some(Event::Enrol { repo, name, lease })
}

// `refs NAME REPO`
fn refs(words: &mut LineWords<'_>) -> Option<Event>
    ensures { result ≡ refs_of words.old }
{
    let name = words.name()?;
    let repo = RepoId(words.small()?);
    words.end()?;
    Some(Event::Refs { name, repo })
}

/// The event of a line on storages and repositories, by its first word and those behind it. `None`
/// where the line is none of these. Takes memory for the path of `create` alone.
pub fn read_cluster(
    alloc: Global,
    first: &[u8],
    words: &mut LineWords<'_>,
) -> Result<Option<Event>, AllocError>
    ensures event { IfOk result (λ event. event ≡ cluster_of first.now words.old) }
    ensures memory { OnErr result (first.now ≡ codes "create") }
{
    if is_text(first, b"storage") {
        return Ok(storage(words));
    }
    if is_text(first, b"health") {
        return Ok(health(words));
    }
    if is_text(first, b"create") {
        return create(alloc, words);
    }
    if is_text(first, b"make") {
        return Ok(make(words));
    }
    if is_text(first, b"enrol") {
        return Ok(enrol(words));
    }
    if is_text(first, b"refs") {
        return Ok(refs(words));
    }
    if is_text(first, b"booked") {
        return Ok(
            words
                .only_repo()
                .map(|repo| Event::Operation(Op::Booked { repo })),
        );
    }
    if is_text(first, b"holder") {
        return Ok(
            words
                .only_repo()
                .map(|repo| Event::Operation(Op::Holder { repo })),
        );
    }
    Ok(None)
}
