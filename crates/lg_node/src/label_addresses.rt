// The addresses of labels.

ghost use Rattle.std.specs.Prelude.{◌≡◌, ◌<◌, ◌^◌, ◌↔◌, ℕ, List, length, slice_index, vec_len, IfOk, IsTrue};

use lg_base::OutOfMemory;
use std::alloc::Global;
use std::marker::Model;

/// The address of each label, by the label's number. An address is a word of 64 bits.
#[derive(Drop)]
pub struct LabelAddresses {
    addresses: Vec<u64>,
}

impl Model for LabelAddresses {
    ghost Value = { List ℕ };

    ghost view = { λ l. l.addresses.items };

    ghost invariant = { λ l. vec_len l.addresses < 2 ^ 32 };
}

impl LabelAddresses {
    /// Returns the list of these addresses (at most 4,294,967,295).
    pub fn of(alloc: Global, list: &[u64]) -> Result<LabelAddresses, OutOfMemory>
        requires { length list.now < 2 ^ 32 }
        ensures { IfOk result (λ l. l ≡ list.now) }
    {
        let addresses = Vec::from_slice(alloc, list)?;
        Ok(LabelAddresses { addresses })
    }

    /// Returns the list that a vector holds (at most 4,294,967,295 addresses). No memory is taken.
    pub fn from_vec(addresses: Vec<u64>) -> LabelAddresses
        requires { length addresses.items < 2 ^ 32 }
        ensures { result ≡ addresses.items }
    {
        LabelAddresses { addresses }
    }

    /// Returns how many labels there are.
    pub fn len(&self) -> u32
        ensures { result ≡ length self.now }
    {
        self.addresses.len() as u32
    }

    /// Returns whether there is none.
    pub fn is_empty(&self) -> bool
        ensures { IsTrue result ↔ (length self.now ≡ 0) }
    {
        self.addresses.len() == 0
    }

    /// Returns the address of the label of a number, which is below `len`.
    pub fn get(&self, label: u32) -> u64
        requires { label < length self.now }
        ensures { result ≡ slice_index self.now label }
    {
        self.addresses[label as usize]
    }

    /// Returns the addresses.
    pub fn as_slice(&self) -> &[u64]
        ensures value { result.now ≡ self.now }
        ensures small { length self.now < 2 ^ 32 }
    {
        &self.addresses
    }
}
