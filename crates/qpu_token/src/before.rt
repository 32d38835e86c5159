ghost use Rattle.std.specs.Prelude.{◌≡◌, ◌+◌};

/// What stands directly before a token.
#[derive(Clone, Copy, Debug, PartialEq, Eq)]
pub(crate) enum Before {
    /// Nothing that matters.
    Other,
    /// The sign `.`.
    Dot,
    /// The sign `.` and the name `word`.
    DotWord,
}

impl Before {
    ghost use Rattle.std.specs.Prelude.{◌-◌, ◌^◌};
    ghost use Rattle.qpu_token.specs.Tokens.{after_text, bound};

    /// What then stands before the token behind this one.
    pub(crate) fn after(self, word: &[u8]) -> Before
        ensures { result ≡ after_text self word.now }
    {
        if word == b".".as_slice() {
            return Before::Dot;
        }
        if word != b"word".as_slice() {
            return Before::Other;
        }
        match self {
            Before::Dot => Before::DotWord,
            Before::Other | Before::DotWord => Before::Other,
        }
    }

    /// The largest number that may stand here.
    pub(crate) fn most(self) -> u64
        ensures { result + 1 ≡ bound self }
    {
        match self {
            Before::DotWord => u64::MAX,
            Before::Other | Before::Dot => u32::MAX as u64,
        }
    }
}
