// A line of standard error about a file.

use std::fmt;

/// What is told of a file: a line without its end, or `None` if nothing is known.
pub type Complaint = Option<String>;

/// The most bytes of a value that are shown.
const MOST_SHOWN: usize = 40;

/// A value as it is shown: its first bytes, those that can't be printed as `\x0a`.
#[derive(Clone, Copy)]
pub(crate) struct Shown<'a>(pub(crate) &'a [u8]);

impl fmt::Display for Shown<'_> {
    fn fmt<W: fmt::Write>(&self, f: &mut fmt::Formatter<W>) -> fmt::Result {
        let bytes = self.0;
        for byte in bytes.iter().take(MOST_SHOWN) {
            show(f, *byte)?;
        }
        if bytes.len() > MOST_SHOWN {
            f.write_str("..")
        } else {
            Ok(())
        }
    }
}

fn show<W: fmt::Write>(f: &mut fmt::Formatter<W>, byte: u8) -> fmt::Result {
    if byte == b' ' || byte.is_ascii_graphic() {
        f.write_char(char::from(byte))
    } else {
        write!(f, "\\x{byte:02x}")
    }
}

/// What a value has to be.
#[derive(Clone, Copy)]
pub(crate) enum Wanted {
    Form(&'static str),
    /// A number from the first to the last one, of this kind.
    Number(&'static str, u32, u32),
}

impl fmt::Display for Wanted {
    fn fmt<W: fmt::Write>(&self, f: &mut fmt::Formatter<W>) -> fmt::Result {
        match self {
            Wanted::Form(form) => f.write_str(form),
            Wanted::Number(kind, first, last) => write!(f, "{kind} from {first} to {last}"),
        }
    }
}

/// What is wrong.
#[derive(Clone, Copy)]
pub(crate) enum Wrong<'a> {
    /// The value is not what it has to be.
    Value(&'a [u8], Wanted),
    /// The same of a value that is not shown.
    Unshown(Wanted),
    /// There is no value; what it has to be.
    Missing(Wanted),
    /// The value has a form that is right, and this is said of it.
    Says(&'a [u8], &'static str),
    /// There are so many of them, and there may be so many.
    Count(usize, Wanted),
}

impl fmt::Display for Wrong<'_> {
    fn fmt<W: fmt::Write>(&self, f: &mut fmt::Formatter<W>) -> fmt::Result {
        match self {
            Wrong::Value(value, wanted) => write!(f, "'{}' is not {}", Shown(value), wanted),
            Wrong::Unshown(wanted) => write!(f, "has to be {wanted}"),
            Wrong::Missing(wanted) => write!(f, "is missing, and has to be {wanted}"),
            Wrong::Says(value, what) => write!(f, "'{}' {}", Shown(value), what),
            Wrong::Count(count, wanted) => write!(f, "there are {count}, and not {wanted}"),
        }
    }
}

/// A place in a file: its name, and the line, from 1; 0 if it has none.
#[derive(Clone, Copy)]
pub(crate) struct FileLine<'a> {
    pub(crate) file: &'a str,
    pub(crate) line: u64,
}

impl fmt::Display for FileLine<'_> {
    fn fmt<W: fmt::Write>(&self, f: &mut fmt::Formatter<W>) -> fmt::Result {
        let FileLine { file, line } = *self;
        if line == 0 {
            f.write_str(file)
        } else {
            write!(f, "{file}:{line}")
        }
    }
}
