// Sets of settings, by value: words of 64 bits, one bit a setting.
#![tactic(auto)]

ghost use Rattle.std.specs.Prelude.{◌≡◌, ◌||◌, ℕ, ◌<◌, eqb};
ghost use Rattle.sets.specs.Sets.{words, most_members, member, Words};

// Words of a set.
pub const WORDS: usize = 4;

// Bits of a word.
const BITS: usize = 64;

// Whether a setting is a member.
pub fn has(set: [u64; WORDS], setting: usize) -> bool
    ensures { result ≡ member set setting }
{
    set.get(setting / BITS)
        .is_some_and(|word| (word >> (setting % BITS)) % 2 == 1)
}

// The set with one setting more, if there is a bit for it.
pub fn with(mut set: [u64; WORDS], setting: usize) -> [u64; WORDS]
    ensures array { Words words result }
    ensures members { (v : ℕ) → v < most_members → member result v ≡ eqb v setting || member set v }
{
    if setting < BITS * WORDS {
        set[setting / BITS] |= 1 << (setting % BITS);
    }
    set
}
