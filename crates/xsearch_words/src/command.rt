ghost use Rattle.std.specs.Prelude.{◌≡◌};
ghost use Rattle.xsearch_words.specs.Commands.{command_of, front as front_of, keys_of, name_count};

/// A command of the program.
#[derive(Clone, Copy, Debug)]
pub(crate) enum Command {
    Solve,
    Alone,
    Check,
    Show,
    Gen,
    Sample,
}

/// A key of the options.
#[derive(Clone, Copy, Debug)]
pub(crate) enum Key {
    Tasks,
    Threads,
    Work,
    Store,
    Cuts,
    Heuristics,
    DefaultUpper,
    Cert,
    Log,
}

impl Command {
    /// The command of a word.
    pub(crate) fn of(word: &[u8]) -> Option<Command>
        ensures { result ≡ command_of word.now }
    {
        if word == b"solve".as_slice() {
            Some(Command::Solve)
        } else if word == b"alone".as_slice() {
            Some(Command::Alone)
        } else if word == b"check".as_slice() {
            Some(Command::Check)
        } else if word == b"show".as_slice() {
            Some(Command::Show)
        } else if word == b"gen".as_slice() {
            Some(Command::Gen)
        } else if word == b"sample".as_slice() {
            Some(Command::Sample)
        } else {
            None
        }
    }

    /// How many names the command has.
    pub(crate) fn name_count(self) -> usize
        ensures { result ≡ name_count self }
    {
        match self {
            Command::Check => 2,
            Command::Solve | Command::Alone | Command::Show => 1,
            Command::Gen | Command::Sample => 1,
        }
    }

    /// The keys of the command.
    pub(crate) fn keys(self) -> &'static [Key]
        ensures { result.now ≡ keys_of self }
    {
        match self {
            Command::Solve | Command::Alone => &[
                Key::Tasks,
                Key::Threads,
                Key::Work,
                Key::Store,
                Key::Cuts,
                Key::Heuristics,
                Key::DefaultUpper,
                Key::Cert,
                Key::Log,
            ],
            Command::Check => &[Key::DefaultUpper],
            Command::Show | Command::Gen => &[],
            Command::Sample => &[
                Key::Tasks,
                Key::Threads,
                Key::Work,
                Key::Store,
                Key::Cuts,
                Key::Heuristics,
            ],
        }
    }
}

impl Key {
    /// What a word that gives the key a value begins with.
    pub(crate) fn front(self) -> &'static [u8]
        ensures { result.now ≡ front_of self }
    {
        match self {
            Key::Tasks => b"--tasks=",
            Key::Threads => b"--threads=",
            Key::Work => b"--work=",
            Key::Store => b"--store=",
            Key::Cuts => b"--cuts=",
            Key::Heuristics => b"--heuristics=",
            Key::DefaultUpper => b"--default-upper=",
            Key::Cert => b"--cert=",
            Key::Log => b"--log=",
        }
    }
}
