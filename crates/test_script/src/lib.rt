// A test script: lines of a word and decimal numbers, as "message 0 1 2 3 4". A word is all that stands
// before the first blank.
#![tactic(auto)]

ghost use Rattle.std.specs.Prelude.{true, ℕ, ◌≡◌, ◌==◌, ◌-◌, ◌%◌, ◌<◌, ◌≤◌};
ghost use Rattle.std.specs.Prelude.{drop, get_or, length, min, position, take};
ghost use Rattle.tables.specs.Lists.{tabulate};
ghost use Rattle.test_script.specs.Scripts.{extended, word_of};

// The numbers of a line, of which it has so many.
#[derive(Clone, Copy)]
pub struct Line {
    pub numbers: [u64; 16],
    pub count: usize,
    ghost few: { count ≤ 16 },
}

// Where the first blank of a line stands.
fn blank(line: &[u8]) -> Option<usize>
    ensures { result ≡ position (λ byte. byte == 32) line.now }
{
    line.iter().position(|byte| *byte == b' ')
}

// The word of a line.
pub fn word_of(line: &[u8]) -> &[u8]
    ensures { result.now ≡ word_of line.now }
{
    match blank(line) {
        Some(end) => &line[..end],
        None => line,
    }
}

// Whether a line begins with a word, all of which stands before its first blank.
pub fn says(line: &[u8], word: &[u8]) -> bool
    ensures { (result ≡ true → word_of line.now ≡ word.now)
        × (word_of line.now ≡ word.now → result ≡ true) }
{
    word_of(line) == word
}

// The number of some digits. Those behind 99999999999999999, or a number above it, are left out.
fn value_of(digits: &[u8]) -> u64
    requires { (k : ℕ) → k < length digits.now → 48 ≤ get_or digits.now k 0 }
{
    let mut value: u64 = 0;
    for digit in digits {
        if value < 99999999999999999 {
            value = 10 * value + u64::from(*digit - b'0');
        }
    }
    value
}

// The numbers of a line: the first sixteen.
pub fn numbers_in(text: &[u8]) -> Line
    ensures { result.count ≤ 16 }
{
    let mut numbers = [0; 16];
    let mut count = 0;
    for digits in text.split(|byte| !byte.is_ascii_digit()) {
        if !digits.is_empty() && count < 16 {
            numbers[count] = value_of(digits);
            count += 1;
        }
    }
    Line { numbers, count }
}

impl Line {
    // Number i, as 16 bits.
    pub fn small(&self, i: usize) -> u16
        requires { i < 16 }
        ensures { result ≡ get_or self.now.numbers i 0 % 65536 }
    {
        (self.numbers[i] % 65536) as u16
    }

    // The numbers, as 16 bits each.
    pub fn smalls(&self) -> [u16; 16]
        ensures { result ≡ tabulate 16 (λ i. get_or self.now.numbers i 0 % 65536) }
    {
        self.numbers.map(|number| (number % 65536) as u16)
    }

    // Number i, as a set of processes.
    pub fn set(&self, i: usize) -> u32
        requires { i < 16 }
        ensures { result ≡ get_or self.now.numbers i 0 % 4294967296 }
    {
        (self.numbers[i] % 4294967296) as u32
    }

    // The numbers, as sets of processes.
    pub fn sets(&self) -> [u32; 16]
        ensures { result ≡ tabulate 16 (λ i. get_or self.now.numbers i 0 % 4294967296) }
    {
        self.numbers.map(|number| (number % 4294967296) as u32)
    }

    // Number i, as a size.
    pub fn size(&self, i: usize) -> usize
        requires { i < 16 }
        ensures { result ≡ get_or self.now.numbers i 0 }
    {
        self.numbers[i] as usize
    }

    // Number i, as a size: `most` where it is more.
    pub fn size_up_to(&self, i: usize, most: usize) -> usize
        requires { i < 16 }
        ensures { (result ≤ most) × (result ≡ min (get_or self.now.numbers i 0) most) }
    {
        self.size(i).min(most)
    }

    // The numbers of the line behind the first so many, in the form in which they are given.
    pub fn behind<'a, T>(&self, numbers: &'a [T; 16], first: usize) -> &'a [T]
        ensures { result.now ≡ take (self.now.count - first) (drop first numbers.now) }
    {
        let numbers = &numbers[..];
        &numbers[first.min(self.count)..self.count]
    }
}

// The most ceilings that a line lends.
pub const MOST_CEILINGS: usize = 64;

// A list that begins with some numbers: the last of them goes on to the end, and without one all are `none`.
pub fn extended<T: Copy, const N: usize>(numbers: &[T], none: T) -> [T; N]
    ensures { result ≡ tabulate N (extended none numbers.now) }
{
    let last = numbers.last().copied().unwrap_or(none);
    let mut list = [last; N];
    let len = numbers.len().min(N);
    list[..len].copy_from_slice(&numbers[..len]);
    list
}
