//! The letters by which a client knows its key.
ghost use Rattle.std.specs.Prelude.{◌≡◌, ◌<◌, ◌≤◌, Some, length, take};
ghost use Rattle.asp_session.specs.Letters as spec;

use rand_chacha::ChaCha20Rng;
use rand_core::SeedableRng;
use rand_core::utils::NextWord;

/// The letter of a number: A to Z for 0 to 25, and so on again.
fn letter(number: u32) -> u8
    ensures { result ≡ spec.letter number }
{
    b'A' + (number % 26) as u8
}

/// The letters of a key, counted from 1: its number, and words of the key stream of the seed.
pub fn letters(seed: &[u8; 32], key: u32) -> [u8; 24]
    requires { 0 < key }
    ensures letters { result ≡ spec.letters_of seed.now key }
    ensures read_back { key < 2147483648 → spec.key_of_letters seed.now result ≡ Some key }
{
    let mut letters = [b'A'; 24];
    let mut number = key;
    let mut place = 8;
    while place > 0 {
        place -= 1;
        letters[place] = letter(number);
        number /= 26;
    }
    let mut words = ChaCha20Rng::from_seed(*seed);
    words.set_word_pos(16 * (key as u128 - 1));
    for place in 8..24 {
        letters[place] = letter(words.next_word());
    }
    letters
}

/// What a letter counts in base 26.
fn digit(letter: u8) -> u64
    ensures { result ≡ spec.digit letter }
{
    letter.saturating_sub(b'A') as u64
}

/// The number that the first 8 letters say in base 26.
fn number_of(letters: &[u8]) -> u64
    requires { 8 ≤ length letters.now }
    ensures { result ≡ spec.number_of (take 8 letters.now) }
{
    let mut number = 0;
    for place in 0..8 {
        number = number * 26 + digit(letters[place]);
    }
    number
}

/// The key whose letters these are, if there is one.
pub fn key_of_letters(seed: &[u8; 32], cookie: &[u8]) -> Option<u32>
    ensures { result ≡ spec.key_of_letters seed.now cookie.now }
{
    if cookie.len() != 24 {
        return None;
    }
    let number = number_of(cookie);
    if number == 0 || number >= 2_147_483_648 {
        return None;
    }
    let key = number as u32;
    if cookie == letters(seed, key).as_slice() {
        Some(key)
    } else {
        None
    }
}
