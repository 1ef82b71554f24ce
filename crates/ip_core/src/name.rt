ghost use Rattle.std.specs.Prelude.{◌≡◌, ◌↔◌, IsTrue};
ghost use Rattle.std.specs.Option.{SomeIff};
ghost use Rattle.ip_core.specs.Names.{IsName, IsNameByte};

use crate::Text;
use crate::limits::MAX_NAME;
use std::marker::Model;

/// The name of a model, a row or a column: at most 255 bytes, each from 33 to 126.
#[derive(Debug, Drop)]
pub struct Name {
    text: Text,
}

impl Model for Name {
    ghost use Rattle.std.specs.Prelude.{ℕ, List};
    ghost use Rattle.ip_core.specs.Names.{IsName};

    ghost Value = { List ℕ };

    ghost view = { λ n. n.text };

    ghost invariant = { λ n. IsName n.text };
}

impl Name {
    /// The text as a name, or None exactly where it isn't one. It takes no memory.
    pub fn of(text: Text) -> Option<Name>
        ensures { SomeIff result (IsName text) text }
    {
        if is_name(text.as_slice()) {
            Some(Name { text })
        } else {
            None
        }
    }

    /// The bytes of the name.
    pub fn text(&self) -> &Text
        ensures value { result.now ≡ self.now }
        ensures valid { IsName self.now }
    {
        &self.text
    }
}

fn is_name(bytes: &[u8]) -> bool
    ensures { IsTrue result ↔ IsName bytes.now }
{
    bytes.len() <= MAX_NAME && bytes.iter().all(|&byte| is_name_byte(byte))
}

fn is_name_byte(byte: u8) -> bool
    ensures { IsTrue result ↔ IsNameByte byte }
{
    33 <= byte && byte <= 126
}
