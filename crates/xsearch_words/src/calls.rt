ghost use Rattle.std.specs.Prelude.{◌≡◌, take};

use ip_core::List;

/// The calls of a shelf or a sink in memory, numbered from 1, and the numbers of those that are to
/// fail. Of a failing write the first bytes, at most `first` of them, go out.
#[derive(Debug, Drop)]
pub(crate) struct Calls {
    fails: List<u64>,
    first: u64,
    made: u64,
}

impl Calls {
    ghost use Rattle.xsearch_words.specs.Calls.{no_calls, after_call, next_fails};

    /// No call was made yet.
    pub(crate) fn new(fails: List<u64>, first: u64) -> Calls
        ensures { result ≡ no_calls fails first }
    {
        Calls {
            fails,
            first,
            made: 0,
        }
    }

    /// Numbers the next call, and says whether it is to fail.
    pub(crate) fn next(&mut self) -> bool
        ensures fails { result ≡ next_fails self.old }
        ensures made { self.new ≡ after_call self.old }
    {
        self.made = self.made.saturating_add(1);
        self.fails.as_slice().contains(&self.made)
    }

    /// The bytes of a failing write that go out.
    pub(crate) fn front<'b>(&self, bytes: &'b [u8]) -> &'b [u8]
        ensures { result.now ≡ take self.now.first bytes.now }
    {
        let length = bytes.len();
        if self.first < length as u64 {
            &bytes[..self.first as usize]
        } else {
            bytes
        }
    }
}
