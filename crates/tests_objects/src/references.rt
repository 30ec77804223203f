//! Names of references and paths, and the text and the vote of a push.

use crate::words::updates;
use px_base::{Lease, NameFault, RefName, RepoPath};
use refstore::{hook_text, vote_of};
use std::alloc::Global;
use std::test::Fail;
use tests_tables::play;

// What reading comes to: whether all is as it should be, or the first bad place.
fn told(alloc: Global, read: Result<bool, NameFault>) -> Result<String, Fail> {
    let word = match read {
        Ok(true) => "ok",
        Ok(false) => "no",
        Err(NameFault::BadName { at }) => return Ok(format!(in alloc; "{at}")?),
        Err(NameFault::Memory) => "memory",
    };
    Ok(String::from_str(alloc, word)?)
}

// Whether the name and its copy keep the text.
fn reference(alloc: Global, text: &[u8]) -> Result<bool, NameFault> {
    let name = RefName::read(alloc, text)?;
    match name.copy(alloc) {
        Ok(copied) => Ok(copied == name && copied.as_bytes() == text),
        Err(_) => Err(NameFault::Memory),
    }
}

fn path(alloc: Global, text: &[u8]) -> Result<bool, NameFault> {
    let path = RepoPath::read(alloc, text)?;
    Ok(path.as_bytes() == text)
}

// The number of a lease, if there is one.
fn lease(alloc: Global, text: &str) -> Result<String, Fail> {
    match Lease::new(text.parse::<u64>()?) {
        Some(lease) => Ok(format!(in alloc; "{}", lease.number())?),
        None => Ok(String::from_str(alloc, "none")?),
    }
}

// Whether the first name is above the second one.
fn above(alloc: Global, text: &str) -> Result<bool, NameFault> {
    let (first, second) = text.split_once(" ").unwrap_or((text, ""));
    let first = RefName::read(alloc, first.as_bytes())?;
    let second = RefName::read(alloc, second.as_bytes())?;
    Ok(first > second)
}

fn vote(alloc: Global, text: &str) -> Result<String, Fail> {
    let vote = vote_of(updates(alloc, text)?.as_slice());
    Ok(String::from_str(alloc, str::from_utf8(&vote.text()).unwrap_or("?"))?)
}

// What names, leases and votes are told as.
fn answer(alloc: Global, _: &mut (), name: &str, rest: &str) -> Result<String, Fail> {
    match name {
        "reference" => told(alloc, reference(alloc, rest.as_bytes())),
        "path" => told(alloc, path(alloc, rest.as_bytes())),
        "lease" => lease(alloc, rest),
        "above" => told(alloc, above(alloc, rest)),
        _ => vote(alloc, rest),
    }
}

// Git says the same of these (`git check-ref-format`), but names no place. It takes the last two: a
// name outside refs/, and bytes above ASCII.
const NAMES: &str = "\
    reference refs/heads/main -> ok
    reference refs/a -> ok
    reference refs/a./b -> ok
    reference refs/@ -> ok
    reference refs/a@b -> ok
    reference refs/a.lockb -> ok
    reference refs/a..b -> 7
    reference refs/a.lock/b -> 11
    reference refs/a.lock -> 11
    reference refs/.lock/a -> 5
    reference refs/a. -> 7
    reference refs/ -> 5
    reference refs/a/ -> 7
    reference refs//a -> 5
    reference refs/.a -> 5
    reference refs/a/@{ -> 8
    reference refs/a b -> 6
    reference refs/a~1 -> 6
    reference refs/a\\b -> 6
    reference refs/a\x7f -> 6
    reference refs -> 4
    reference heads/a -> 0
    reference refs/\u{e9} -> 5";

#[test]
fn a_reference_has_a_name_or_a_first_bad_place(rt: HostRuntime) -> Result<(), Fail> {
    play(rt.alloc(), &mut (), answer, NAMES)
}

// A name has at most 255 bytes.
const LONG_NAMES: &str = "\
    reference refs/aaaaaaaaaaaaaaaaaaaaaaaaaaaaaaaaaaaaaaaaaaaaaaaaaaaaaaaaaaaaaaaaaaaaaaaaaaaaa\
        aaaaaaaaaaaaaaaaaaaaaaaaaaaaaaaaaaaaaaaaaaaaaaaaaaaaaaaaaaaaaaaaaaaaaaaaaaaaaaaaaaaaaaaa\
        aaaaaaaaaaaaaaaaaaaaaaaaaaaaaaaaaaaaaaaaaaaaaaaaaaaaaaaaaaaaaaaaaaaaaaaaaaaaaaaaaaaaa -> ok
    reference refs/aaaaaaaaaaaaaaaaaaaaaaaaaaaaaaaaaaaaaaaaaaaaaaaaaaaaaaaaaaaaaaaaaaaaaaaaaaaaa\
        aaaaaaaaaaaaaaaaaaaaaaaaaaaaaaaaaaaaaaaaaaaaaaaaaaaaaaaaaaaaaaaaaaaaaaaaaaaaaaaaaaaaaaaa\
        aaaaaaaaaaaaaaaaaaaaaaaaaaaaaaaaaaaaaaaaaaaaaaaaaaaaaaaaaaaaaaaaaaaaaaaaaaaaaaaaaaaaaa -> 255
    above refs/b refs/aaaaaaaaaaaaaaaaaaaaaaaaaaaaaaaaaaaaaaaaaaaaaaaaaaaaaaaaaaaaaaaaaaaaaaaaa\
        aaaaaaaaaaaaaaaaaaaaaaaaaaaaaaaaaaaaaaaaaaaaaaaaaaaaaaaaaaaaaaaaaaaaaaaaaaaaaaaaaaaaaaa\
        aaaaaaaaaaaaaaaaaaaaaaaaaaaaaaaaaaaaaaaaaaaaaaaaaaaaaaaaaaaaaaaaaaaaaaaaaaaaaaaaaaaaaaa\
        aaa -> ok";

#[test]
fn a_name_has_a_greatest_length(rt: HostRuntime) -> Result<(), Fail> {
    play(rt.alloc(), &mut (), answer, LONG_NAMES)
}

// In the last path a bad byte comes before a bad component.
const PATHS: &str = "\
    path x.git -> ok
    path @hashed/a_b/c+d-1.git -> ok
    path a/.b -> ok
    path a/..b -> ok
    path -> 0
    path /a -> 0
    path ./a -> 0
    path .. -> 0
    path a//b -> 2
    path a/ -> 2
    path a/../b -> 2
    path a b -> 1
    path a/./b c -> 5";

#[test]
fn a_repository_has_a_path_or_a_first_bad_place(rt: HostRuntime) -> Result<(), Fail> {
    play(rt.alloc(), &mut (), answer, PATHS)
}

// The last number is 2^64 - 1. The votes are by sha1sum.
const LEASES_AND_VOTES: &str = "\
    lease 0 -> 0
    lease 1 -> 1
    lease 18446744073709551614 -> 18446744073709551614
    lease 18446744073709551615 -> none
    vote 0 B refs/tags/empty -> 486a01e01b4248b74452b5a140fb221f9033e770
    vote 0 B refs/heads/b; B T refs/heads/a -> 9888a85d1037c88a5a42f33b16989b488f3b5b8f
    vote B 0 refs/heads/main -> b4572333b6138484822f55bd86e631fe3caae694";

#[test]
fn a_lease_is_below_the_last_number_and_a_push_has_its_vote(rt: HostRuntime) -> Result<(), Fail> {
    play(rt.alloc(), &mut (), answer, LEASES_AND_VOTES)
}

const HOOK_TEXT: &[u8] =
    b"0000000000000000000000000000000000000000 e69de29bb2d1d6434b8b29ae775ad8c2e48c5391 \
    refs/heads/b\ne69de29bb2d1d6434b8b29ae775ad8c2e48c5391 \
    4b825dc642cb6eb9a060e54bf8d69288fbee4904 refs/heads/a\n";

#[test]
fn a_push_has_the_text_that_git_gives_its_hook(rt: HostRuntime) -> Result<(), Fail> {
    let pushed = updates(rt.alloc(), "0 B refs/heads/b; B T refs/heads/a")?;
    let text = hook_text(rt.alloc(), pushed.as_slice())?;
    assert!(rt; text.as_slice() == HOOK_TEXT);
    Ok(())
}
