//! Six bytes as one 48-bit word, and the fields that are cut from it.
#![tactic(auto)]

ghost use Rattle.std.specs.Prelude.{◌≡◌, ℕ, ◌+◌, ◌-◌, ◌*◌, ◌/◌, ◌%◌, ◌^◌, ◌<◌, ◌≤◌, length, nat_lt};
ghost use Rattle.packing.specs.Fields.{field, word, bytes};
ghost use Rattle.packing.specs.Laws.{FieldsGiveTheWord, ValuesComeBack, WordsFit, BytesComeBack, WordComesBack};

/// The bits of a word.
pub const BITS: u32 = 48;

// No `From`, here and below: neither type is this crate's.
/// The six bytes as a word, the first byte the highest.
pub fn word_of(six: &[u8; 6]) -> u64
    ensures value { result ≡ word six.now }
    ensures small { result < 2 ^ 48 }
{
    let [a, b, c, d, e, f] = *six;
    u64::from_be_bytes([0, 0, a, b, c, d, e, f])
}

/// The six bytes of a word; what it has above 48 bits is left out.
pub fn bytes_of(word: u64) -> [u8; 6]
    ensures { result ≡ bytes word }
{
    let [_, _, a, b, c, d, e, f] = word.to_be_bytes();
    [a, b, c, d, e, f]
}

/// A field of a word: its first bit, 0 the most significant, and its width.
#[derive(Clone, Copy, PartialEq, Eq, Debug)]
pub struct Field {
    pub first: u8,
    pub width: u8,
}

impl Field {
    /// The field's value in a word.
    pub fn cut(self, word: u64) -> u64
        ensures { result ≡ field self.first self.width word }
    {
        self.lowest(word >> self.behind())
    }

    /// A value moved to the field's place in an empty word; bits past the 64th are lost.
    pub fn embed(self, value: u64) -> u64
        ensures { result ≡ value * 2 ^ (48 - self.first - self.width) % 2 ^ 64 }
    {
        value << self.behind()
    }

    /// Whether a value fits the field.
    #[tactic(auto, using(crate::proofs::Cuts::lowest_whole))]
    pub fn fits(self, value: u64) -> bool
        ensures { result ≡ nat_lt value (2 ^ self.width) }
    {
        self.lowest(value) == value
    }

    /// As many of a value's lowest bits as the field has.
    #[tactic(auto, using(crate::proofs::Cuts::mod_wide))]
    fn lowest(self, value: u64) -> u64
        ensures { result ≡ value % 2 ^ self.width }
    {
        if self.width < 64 {
            value % (1 << self.width)
        } else {
            value
        }
    }

    /// How many bits of the word lie behind the field.
    fn behind(self) -> u32
        ensures { result ≡ 48 - self.first - self.width }
    {
        BITS.saturating_sub(u32::from(self.first) + u32::from(self.width))
    }
}

/// The fields of a layout and its word determine each other.
#[tactic(auto, using(crate::proofs::Cuts::fields_give_the_word, crate::proofs::Cuts::values_come_back, crate::proofs::Cuts::words_fit))]
pub fn layouts_pack()
    ensures fields { FieldsGiveTheWord }
    ensures values { ValuesComeBack }
    ensures small { WordsFit }
{}

/// Six bytes and their word determine each other.
pub fn bytes_pack()
    ensures bytes { BytesComeBack }
    ensures word { WordComesBack }
{}
