ghost use Rattle.std.specs.Prelude.{◌≡◌, ◌++◌, [], ◌∷◌, OnOk, OnErr};
ghost use Rattle.std.specs.Option.{option_copied};

use std::alloc::{AllocError, Global};
use std::marker::Model;

#[derive(Drop)]
struct NamedFile {
    name: String,
    bytes: Vec<u8>,
}

/// Names with their bytes. Of two equal names the first counts.
#[derive(Drop)]
pub struct NamedFiles {
    files: Vec<NamedFile>,
}

impl Model for NamedFiles {
    ghost use Rattle.std.specs.Prelude.{ℕ, List};

    ghost Value = { List (List ℕ × List ℕ) };

    ghost use Rattle.wg_io.specs.Named.{pairs_of};

    ghost view = { λ named. pairs_of named.files.items };
}

impl NamedFiles {
    ghost use Rattle.std.specs.Prelude.{string_bytes};
    ghost use Rattle.wg_io.specs.Named.{bytes_under};

    pub fn new(alloc: Global) -> Self
        ensures { result ≡ [] }
    {
        NamedFiles {
            files: Vec::new(alloc),
        }
    }

    /// Adds a name with its bytes behind those that are there.
    pub fn add(&mut self, name: String, bytes: Vec<u8>) -> Result<(), AllocError>
        ensures ok { OnOk result (self.new ≡ self.old ++ (string_bytes name, bytes.items) ∷ []) }
        ensures err { OnErr result (self.new ≡ self.old) }
    {
        self.files.push(NamedFile { name, bytes })?;
        Ok(())
    }

    /// The bytes under a name.
    pub fn find(&self, name: &str) -> Option<&[u8]>
        ensures { option_copied result ≡ bytes_under self.now name.now }
    {
        for file in &self.files {
            if file.name.as_str() == name {
                return Some(file.bytes.as_slice());
            }
        }
        None
    }
}
