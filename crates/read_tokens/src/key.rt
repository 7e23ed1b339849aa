//! A key that is looked for.
ghost use Rattle.std.specs.Prelude.{◌≡◌, [], All, OnErr, OnOk};
ghost use Rattle.read_tokens.specs.Runs.{IsPlain};

use std::alloc::{AllocError, Global};
use std::marker::Model;

/// A key that is looked for, of bytes that stand for themselves in a text: no control bytes, quotes or backslashes.
#[derive(Drop)]
pub struct Key {
    name: Vec<u8>,
}

impl Model for Key {
    ghost use Rattle.std.specs.Prelude.{ℕ, List};

    ghost Value = { List ℕ };

    ghost view = { λ k. k.name.items };

    ghost use Rattle.std.specs.Prelude.{All};
    ghost use Rattle.read_tokens.specs.Runs.{IsPlain};

    ghost invariant = { λ k. All IsPlain k.name.items };
}

impl Key {
    /// The key of no bytes. It takes no memory.
    pub fn new(alloc: Global) -> Key
        ensures { result ≡ [] }
    {
        Key {
            name: Vec::new(alloc),
        }
    }

    /// Its bytes.
    #[inline(always)]
    pub fn name(&self) -> &[u8]
        ensures value { result.now ≡ self.now }
        ensures plain { All IsPlain result.now }
    {
        self.name.as_slice()
    }

    /// Makes it the key of these bytes.
    ///
    /// # Errors
    /// If memory runs out; it is then the key of no bytes.
    pub fn set(&mut self, name: &[u8]) -> Result<(), AllocError>
        requires { All IsPlain name.now }
        ensures ok { OnOk result (self.new ≡ name.now) }
        ensures err { OnErr result (self.new ≡ []) }
    {
        self.name.clear();
        self.name.extend_from_slice(name)?;
        Ok(())
    }
}
