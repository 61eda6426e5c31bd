//! What is read behind a statement.

ghost use Rattle.std.specs.Prelude.{◌≡◌, ◌||◌};
ghost use Rattle.programs.specs.Mentions.{is_persist};
ghost use Rattle.voodoo_ops.specs.Later.{reads};

use io_edge::Name;
use last_readers::LastReaders;
use programs::Statement;

/// The reached statements from a place on, by the names that they mention.
#[derive(Clone, Copy)]
pub struct Later<'a> {
    pub readers: &'a LastReaders,
    pub from: usize,
}

impl Later<'_> {
    ghost use Rattle.std.specs.Prelude.{◌≡◌};
    ghost use Rattle.voodoo_ops.specs.Later.{reads};

    /// Whether one of them mentions a name.
    pub fn reads(self, name: &Name) -> bool
        ensures { result ≡ reads self.entry name.now }
    {
        self.readers.reads(name, self.from)
    }
}

/// Whether a statement is reached: it names a result, or what it makes is read later.
pub(crate) fn is_reached(s: &Statement, later: Later) -> bool
    ensures { result ≡ (is_persist s.now.op || reads later.entry s.now.name) }
{
    s.op.persists() || later.reads(&s.name)
}
