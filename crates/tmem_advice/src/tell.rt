// How a line is told.
use crate::found::store_of;
use crate::texts::{BEFORE_A_COPY, NONE_YET};
use std::fmt::Display;
use std::io::{self, Write};
use tmem_args::Asked;
use tmem_explain::DeviceCause;

// Tells why the path of a store could not be used.
pub(crate) fn tell_store_cause<E: Write>(
    err: &mut E,
    path: &str,
    cause: DeviceCause,
) -> io::Result<()> {
    match cause {
        DeviceCause::Missing => tell(
            err,
            format_args!("{path}: {cause}; {BEFORE_A_COPY}; {NONE_YET}"),
        ),
        _ => tell_cause(err, path, cause),
    }
}

// Tells why a path could not be used.
pub(crate) fn tell_cause<E: Write>(err: &mut E, path: &str, cause: DeviceCause) -> io::Result<()> {
    match cause {
        DeviceCause::Empty => tell(err, cause),
        _ => tell_path(err, path, cause),
    }
}

// Tells something of the store's file, or of none.
pub(crate) fn tell_of<E: Write, T: Display + Drop>(
    err: &mut E,
    asked: Asked,
    text: T,
) -> io::Result<()> {
    match store_of(asked) {
        Some((path, _)) => tell_path(err, path, text),
        None => tell(err, text),
    }
}

// Tells something.
pub(crate) fn tell<E: Write, T: Display + Drop>(err: &mut E, text: T) -> io::Result<()> {
    writeln!(err, "tmem: {text}")
}

// Tells something of a path.
pub(crate) fn tell_path<E: Write, T: Display + Drop>(
    err: &mut E,
    path: &str,
    text: T,
) -> io::Result<()> {
    writeln!(err, "tmem: {path}: {text}")
}

// Tells something of a path, and why it is so.
pub(crate) fn tell_because<E: Write, T: Display + Drop, C: Display + Drop>(
    err: &mut E,
    path: &str,
    text: T,
    why: C,
) -> io::Result<()> {
    writeln!(err, "tmem: {path}: {text}: {why}")
}
