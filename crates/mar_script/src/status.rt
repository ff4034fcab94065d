//! How a run ended.
ghost use Rattle.std.specs.Prelude.{◌≡◌};
ghost use Rattle.mar_script.specs.Status.{exit_code};

use std::fmt;

/// Why a line is refused. Of several reasons the first is told in this order: one line too many, too long, no end, no
/// `config`, outside the grammar.
#[derive(Clone, Copy, Debug, PartialEq, Eq)]
pub enum Why {
    /// The script is empty, or the first word of its first line isn't `config`.
    NoConfig,
    /// The script ends inside the line.
    Unended,
    /// The line has more than 65,536 bytes before its end.
    TooLong,
    /// A million lines stand before it.
    TooMany,
    /// The line isn't one of the grammar.
    Grammar,
}

impl fmt::Display for Why {
    ghost use Rattle.std.specs.Prelude.{Some};
    ghost use Rattle.mar_script.specs.Status.{why_text};

    ghost output = { λ why. Some (why_text why) };

    fn fmt<W: fmt::Write>(&self, f: &mut fmt::Formatter<W>) -> fmt::Result {
        f.write_str(match self {
            Why::NoConfig => "no config",
            Why::Unended => "no line end",
            Why::TooLong => "line too long",
            Why::TooMany => "too many lines",
            Why::Grammar => "not in the grammar",
        })
    }
}

/// How a run ended.
#[derive(Clone, Copy, Debug, PartialEq, Eq)]
pub enum Status {
    /// The input was read to its end.
    Ok,
    /// Memory ran out.
    Memory,
    /// The words of the command line aren't a command.
    Usage,
    /// This line, counted from 1, is refused; the lines before it were done.
    Script(u64, Why),
    /// The source failed.
    ReadFault,
    /// The sink failed.
    WriteFault,
}

impl Status {
    /// The code that the program exits with.
    pub fn exit_code(&self) -> u8
        ensures { result ≡ exit_code self.now }
    {
        match self {
            Status::Ok => 0,
            Status::Memory => 1,
            Status::Usage => 2,
            Status::Script(_, _) => 3,
            Status::ReadFault => 4,
            Status::WriteFault => 5,
        }
    }
}

/// Writes what standard error is told, and nothing for `Ok`.
impl fmt::Display for Status {
    ghost use Rattle.std.specs.Prelude.{Some};
    ghost use Rattle.mar_script.specs.Status.{status_text};

    ghost output = { λ status. Some (status_text status) };

    fn fmt<W: fmt::Write>(&self, f: &mut fmt::Formatter<W>) -> fmt::Result {
        match self {
            Status::Ok => f.write_str(""),
            Status::Memory => f.write_str("marshal: memory"),
            Status::Usage => {
                f.write_str("marshal: usage: replay, threads K, gen SEED N, dir PATH replay")
            }
            Status::Script(line, why) => write!(f, "marshal: line {line}: {why}"),
            Status::ReadFault => f.write_str("marshal: read fault"),
            Status::WriteFault => f.write_str("marshal: write fault"),
        }
    }
}
