//! Tables of calls, as text.

use std::alloc::Global;
use std::fmt::Debug;
use std::test::Fail;

/// The call of a line, and the answer that is wanted, which stands behind `->`. A space on either side
/// of that is part of neither.
pub fn parts(line: &str) -> Result<(&str, &str), Fail> {
    match line.trim_start().split_once("->") {
        Some((call, want)) => Ok((
            call.strip_suffix(" ").unwrap_or(call),
            want.strip_prefix(" ").unwrap_or(want),
        )),
        None => Err(Fail::new("a line has no answer")),
    }
}

/// Fails where a call is answered otherwise than wanted.
pub fn compare(call: &str, told: &str, want: &str) -> Result<(), Fail> {
    if told == want {
        return Ok(());
    }
    Err(Fail::new(format_args!("{call} is answered: {told}")))
}

/// Makes the calls of a table to a subject, and fails at the first one that is answered otherwise than
/// its line says. The function gives the answer to a call: its name, and what stands after it and a
/// space.
pub fn play<S, F>(alloc: Global, subject: &mut S, answer: F, table: &str) -> Result<(), Fail>
where
    F: Fn(Global, &mut S, &str, &str) -> Result<String, Fail> + Drop,
    requires { F.IsAlwaysCallable answer }
{
    for line in table.lines() {
        let (call, want) = parts(line)?;
        let (name, rest) = call.split_once(" ").unwrap_or((call, ""));
        let told = answer(alloc, subject, name, rest)?;
        compare(call, told.as_str(), want)?;
    }
    Ok(())
}

/// A value as `{:?}` prints it.
pub fn told<T: Debug + Drop>(alloc: Global, value: T) -> Result<String, Fail> {
    Ok(format!(in alloc; "{value:?}")?)
}
