//! The words that a program is called with.
ghost use Rattle.std.specs.Prelude.{◌≡◌, [], ◌∷◌, ◌++◌, OnOk, OnErr, map, string_bytes};

use gs_quantity::Mem;
use std::alloc::Global;
use std::marker::Model;

/// The words of a command, the command's name first. Contracts see a list of texts, each as its bytes.
#[derive(Debug, Drop)]
pub struct Words {
    alloc: Global,
    words: Vec<String>,
}

impl Model for Words {
    ghost use Rattle.std.specs.Prelude.{List, ℕ, map, string_bytes};

    ghost Value = { List (List ℕ) };

    ghost view = { λ w. map string_bytes w.words.items };
}

impl Words {
    /// No words. It takes no memory.
    pub fn new(alloc: Global) -> Words
        ensures { result ≡ [] }
    {
        Words {
            alloc,
            words: Vec::new(alloc),
        }
    }

    /// Appends a word. Where memory runs out, the words stay as they were.
    pub fn add(&mut self, word: &str) -> Result<(), Mem>
        ensures ok { OnOk result (self.new ≡ self.old ++ word.now ∷ []) }
        ensures err { OnErr result (self.new ≡ self.old) }
    {
        let Ok(word) = String::from_str(self.alloc, word) else {
            return Err(Mem);
        };
        match self.words.push(word) {
            Ok(()) => Ok(()),
            Err(_) => Err(Mem),
        }
    }

    /// The words in their order.
    pub fn as_slice(&self) -> &[String]
        ensures { map string_bytes result.now ≡ self.now }
    {
        self.words.as_slice()
    }
}
