// The host functions by name and by address.

ghost use Rattle.std.specs.Prelude.{◌≡◌};
ghost use Rattle.lg_base.specs.HostNames.{host_by_name, host_by_address, host_address, host_word};

/// A function of the host, which code calls at the function's entry address.
#[derive(Clone, Copy, Debug, PartialEq, Eq)]
pub enum HostName {
    /// C's `printf`.
    Printf,
    /// C's `puts`.
    Puts,
    /// C's `putchar`.
    Putchar,
    /// C's `exit`.
    Exit,
    /// C's `abort`.
    Abort,
    /// C's `atoi`.
    Atoi,
    /// C's `malloc`.
    Malloc,
    /// C's `calloc`.
    Calloc,
    /// C's `free`.
    Free,
    /// C's `memcpy`.
    Memcpy,
    /// C's `memset`.
    Memset,
    /// C's `strlen`.
    Strlen,
    /// C's `strcmp`.
    Strcmp,
}

// The functions in the order of their entries.
static HOST_NAMES: [HostName; 13] = [
    HostName::Printf,
    HostName::Puts,
    HostName::Putchar,
    HostName::Exit,
    HostName::Abort,
    HostName::Atoi,
    HostName::Malloc,
    HostName::Calloc,
    HostName::Free,
    HostName::Memcpy,
    HostName::Memset,
    HostName::Strlen,
    HostName::Strcmp,
];

impl HostName {
    /// Returns the name of the function in C.
    pub fn word(self) -> &'static [u8]
        ensures { result.now ≡ host_word self }
    {
        match self {
            HostName::Printf => b"printf",
            HostName::Puts => b"puts",
            HostName::Putchar => b"putchar",
            HostName::Exit => b"exit",
            HostName::Abort => b"abort",
            HostName::Atoi => b"atoi",
            HostName::Malloc => b"malloc",
            HostName::Calloc => b"calloc",
            HostName::Free => b"free",
            HostName::Memcpy => b"memcpy",
            HostName::Memset => b"memset",
            HostName::Strlen => b"strlen",
            HostName::Strcmp => b"strcmp",
        }
    }

    /// Returns the function of a name, or `None` exactly when no host function has it.
    pub fn by_name(word: &[u8]) -> Option<HostName>
        ensures { result ≡ host_by_name word.now }
    {
        HOST_NAMES.iter().copied().find(|name| word == name.word())
    }

    /// Returns the address of the function's entry: 0x0FF00000 and 16 bytes for each function before it.
    pub fn address(self) -> u64
        ensures { result ≡ host_address self }
    {
        match self {
            HostName::Printf => 0x0ff0_0000,
            HostName::Puts => 0x0ff0_0010,
            HostName::Putchar => 0x0ff0_0020,
            HostName::Exit => 0x0ff0_0030,
            HostName::Abort => 0x0ff0_0040,
            HostName::Atoi => 0x0ff0_0050,
            HostName::Malloc => 0x0ff0_0060,
            HostName::Calloc => 0x0ff0_0070,
            HostName::Free => 0x0ff0_0080,
            HostName::Memcpy => 0x0ff0_0090,
            HostName::Memset => 0x0ff0_00a0,
            HostName::Strlen => 0x0ff0_00b0,
            HostName::Strcmp => 0x0ff0_00c0,
        }
    }

    /// Returns the function whose entry is at an address, or `None` exactly when none does.
    pub fn from_address(address: u64) -> Option<HostName>
        ensures { result ≡ host_by_address address }
    {
        HOST_NAMES
            .iter()
            .copied()
            .find(|name| address == name.address())
    }
}
