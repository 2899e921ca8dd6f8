// The check of a file: the number in its last two bytes. It is taken a word of eight bytes at a time, since the division costs the most.
ghost use Rattle.std.specs.Prelude.{◌≡◌, ◌+◌, ◌<◌, ◌≤◌, flat_map};
ghost use Rattle.numbers.specs.Check.{check, check_step, check_from};
ghost use Rattle.numbers.specs.CheckWords.{first_four, last_four};

// The check h after one more byte.
// The check stays a plain number below 65,521: `check` promises it so, and what is known of a step is known of that number.
fn after_one(h: u32, byte: u8) -> u32
    requires { h < 65521 }
    ensures { (result ≡ check_step h byte) × (result < 65521) }
{
    (h * 257 + u32::from(byte) + 1) % 65521
}

// What the bytes of a word are multiplied by: 257 to the seventh, sixth and so on down to 1, each modulo 65,521.
const WEIGHTS: [u16; 8] = [13_894, 37_786, 33_035, 16_700, 4_654, 528, 257, 1];

// The eight bytes of a word, each times its weight. Compiled, it is the eight products, without a loop.
fn weighed_sum(word: &[u8; 8]) -> u32
    ensures { (result ≡ first_four word.now 0 + last_four word.now 0) × (result ≤ 27248025) }
{
    word.iter()
        .zip(&WEIGHTS)
        .map(|(byte, weight)| u32::from(*byte) * u32::from(*weight))
        .sum()
}

// The check h after a word of eight bytes. h is multiplied by 257 to the eighth, modulo 65,521, and the 1 that comes with
// each byte makes the eight powers' sum. The highest sum is 2,164,879,360.
#[tactic(auto, using(crate::proofs::Checking::word_check))]
fn after_word(h: u32, word: &[u8; 8]) -> u32
    requires { h < 65521 }
    ensures { (result ≡ check_from h word.now) × (result < 65521) }
{
    let word = weighed_sum(word);
    (h * 32_624 + word + 106_855) % 65521
}

// The check of words.
#[tactic(auto, using(crate::proofs::Checking::words_on, crate::proofs::Checking::words_end))]
fn check_words(words: &[[u8; 8]]) -> u32
    ensures { (result ≡ check (flat_map (λ word. word) words.now)) × (result < 65521) }
{
    let mut sum = 0;
    for word in words {
        sum = after_word(sum, word);
    }
    sum
}

// The check of bytes one by one, going on from h.
#[tactic(auto, using(crate::proofs::Checking::check_on, crate::proofs::Checking::check_end))]
fn check_each(h: u32, bytes: &[u8]) -> u32
    requires { h < 65521 }
    ensures { (result ≡ check_from h bytes.now) × (result < 65521) }
{
    let mut sum = h;
    for byte in bytes {
        sum = after_one(sum, *byte);
    }
    sum
}

#[tactic(auto, using(crate::proofs::Checking::check_rest))]
pub fn check(bytes: &[u8]) -> u32
    ensures { (result ≡ check bytes.now) × (result < 65521) }
{
    let (words, rest) = bytes.as_chunks::<8>();
    check_each(check_words(words), rest)
}
