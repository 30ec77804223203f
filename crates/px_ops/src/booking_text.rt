//! The texts of what is booked.

ghost use Rattle.std.specs.Prelude.{◌≡◌, ◌++◌, OnOk};
ghost use Rattle.px_ops.specs.BookingTexts.{begun_text, booking_text, books_text, created_text};
ghost use Rattle.px_ops.specs.BookingTexts.{each_after_space, names_text, row_text};

use crate::fields::{Added, add, add_name, add_number};
use crate::{Begun, BookRow, Booking};
use px_base::{Bytes, Gen, Lease, RepoId, StorageName};

fn add_each_name(text: &mut Bytes, names: &[StorageName]) -> Added
    ensures { OnOk result (text.new ≡ text.old ++ each_after_space (λ name. name) names.now) }
{
    for name in names {
        add_name(text, b" ", name.as_bytes())?;
    }
    Ok(())
}

/// Adds names with a space between each two, or `-` for none.
pub fn add_names(text: &mut Bytes, names: &[StorageName]) -> Added
    ensures { OnOk result (text.new ≡ text.old ++ names_text names.now) }
{
    match names {
        [] => add(text, b"-"),
        [first, rest @ ..] => {
            add(text, first.as_bytes())?;
            add_each_name(text, rest)
        }
    }
}

/// Adds what is booked of a replica.
pub fn add_booking(text: &mut Bytes, booking: &Booking) -> Added
    ensures { OnOk result (text.new ≡ text.old ++ booking_text booking.now) }
{
    match booking {
        Booking::Absent => add(text, b"absent"),
        Booking::At(generation) => add_number(text, b"at:", generation.0),
        Booking::Doubt { lease, was, due } => {
            add_number(text, b"doubt:", lease.number())?;
            add_number(text, b":", was.0)?;
            add_number(text, b":", due.0)
        }
    }
}

fn add_row(text: &mut Bytes, row: &BookRow) -> Added
    ensures { OnOk result (text.new ≡ text.old ++ row_text row.now) }
{
    add_name(text, row.name.as_bytes(), b"=")?;
    add_booking(text, &row.booking)
}

fn add_each_row(text: &mut Bytes, rows: &[BookRow]) -> Added
    ensures { OnOk result (text.new ≡ text.old ++ each_after_space row_text rows.now) }
{
    for row in rows {
        add(text, b" ")?;
        add_row(text, row)?;
    }
    Ok(())
}

/// Adds what is booked of a repository.
pub fn add_books(text: &mut Bytes, newest: Gen, rows: &[BookRow]) -> Added
    ensures { OnOk result (text.new ≡ text.old ++ books_text newest.0 rows.now) }
{
    add_number(text, b"newest ", newest.0)?;
    add_each_row(text, rows)
}

/// Adds a repository that was put on record.
pub fn add_created(text: &mut Bytes, repo: RepoId, lease: Lease, assigned: &[StorageName]) -> Added
    ensures { OnOk result (text.new ≡ text.old ++ created_text repo.0 lease assigned.now) }
{
    add_number(text, b"created ", u64::from(repo.0))?;
    add_number(text, b" lease ", lease.number())?;
    add(text, b" assigned ")?;
    add_names(text, assigned)
}

/// Adds a push that has begun.
pub fn add_begun(text: &mut Bytes, begun: &Begun) -> Added
    ensures { OnOk result (text.new ≡ text.old ++ begun_text begun.now) }
{
    add_number(text, b"begun ", begun.tx.0)?;
    add_number(text, b" lease ", begun.lease.number())?;
    add_number(text, b" gen ", begun.generation.0)?;
    add(text, b" members ")?;
    add_names(text, begun.members.as_slice())?;
    add(text, b" targets ")?;
    add_names(text, begun.targets.as_slice())
}
