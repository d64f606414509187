//! How many records are left that the rows of an import may represent. Rows and records are told apart by keys, which are texts.

ghost use Rattle.std.specs.Prelude.{◌≡◌, ◌+◌, ◌<◌, ◌^◌, ◌++◌, ◌∷◌, [], ℕ, List, Some, None, true, false, not, nat_lt, OnOk, string_bytes, bytes_eq, count_by};
ghost use Rattle.std.specs.List.{list_any};
ghost use Rattle.register_plans.specs.TextKeys.{spelled};
ghost use Rattle.register_plans.specs.RecordsLeft.{IsLeft, left_of};

use std::alloc::{AllocError, Global};
use std::collections::HashMap;

/// Puts a text at the end of a key.
pub fn put_text(key: &mut String, text: &[u8]) -> Result<(), AllocError>
    ensures { OnOk result (string_bytes key.new ≡ string_bytes key.old ++ spelled text.now) }
{
    for b in text {
        key.push((b'a' + *b % 16) as char)?;
        key.push((b'a' + *b / 16) as char)?;
    }
    key.push('z')
}

/// For each key of an import, how many records with it are left.
#[derive(Drop)]
pub struct Leftovers {
    counts: HashMap<String, u32>,
}

impl Leftovers {
    /// No keys, whatever the records. It takes no memory.
    pub fn new(alloc: Global) -> Leftovers
        ensures { (records : List (List ℕ)) → IsLeft result [] records [] }
    {
        Leftovers {
            counts: HashMap::new(alloc),
        }
    }

    /// One more key of the import, with the number of records that have it among those that are counted so far.
    pub fn expect(&mut self, key: String, count: u32) -> Result<(), AllocError>
        ensures { (keys records : List (List ℕ)) → count ≡ count_by (bytes_eq (string_bytes key)) records → IsLeft self.old keys records []
            → OnOk result (IsLeft self.new (keys ++ string_bytes key ∷ []) records []) }
    {
        self.counts.insert(key, count)?;
        Ok(())
    }

    /// One more record.
    pub fn count(&mut self, key: &str)
        requires { (n : ℕ) → left_of self.old key.now ≡ Some n → n + 1 < 2 ^ 32 }
        ensures { (keys records : List (List ℕ)) → IsLeft self.old keys records [] → IsLeft self.new keys (records ++ key.now ∷ []) [] }
    {
        if let Some(count) = self.counts.get_mut(key) {
            *count += 1;
        }
    }

    /// Takes a record with the key, if one is left. The key has to be one of the import's.
    pub fn spend(&mut self, key: &str) -> bool
        ensures left { (keys records spent : List (List ℕ)) → IsLeft self.old keys records spent → IsLeft self.new keys records (spent ++ key.now ∷ []) }
        ensures found { (keys records spent : List (List ℕ)) → IsLeft self.old keys records spent → list_any (bytes_eq key.now) keys ≡ true
            → result ≡ nat_lt (count_by (bytes_eq key.now) spent) (count_by (bytes_eq key.now) records) }
        ensures strange { left_of self.old key.now ≡ None → result ≡ false }
    {
        match self.counts.get_mut(key) {
            Some(count) => if *count > 0 {
                *count -= 1;
                true
            } else {
                false
            },
            None => false,
        }
    }
}
