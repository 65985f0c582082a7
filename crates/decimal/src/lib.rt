// Bytes and numbers in decimal, written into a lent buffer. What stands before and after them stays as it was.
#![tactic(auto)]

ghost use Rattle.std.specs.Prelude.{◌≡◌, [], ◌∷◌, ◌++◌, ◌+◌, ◌≤◌, ◌<◌, length, take};
ghost use Rattle.paper.specs.Listing.{decimal};
ghost use Rattle.decimal.specs.Told.{Room, Told};

// A lent buffer, and the place in it that is written next.
#[derive(Drop)]
pub struct Text<'a> {
    pub out: &'a mut [u8],
    pub at: usize,
}

impl<'a> Text<'a> {
    // What stands before the place.
    pub fn told(&self) -> &[u8]
        requires { self.now.at ≤ length self.now.out.now }
        ensures { result.now ≡ take self.now.at self.now.out.now }
    {
        &self.out[..self.at]
    }

    // One byte.
    pub fn put(&mut self, b: u8)
        requires { Room 1 self.old }
        ensures { Told self.old (b ∷ []) self.new }
    {
        self.out[self.at] = b;
        self.at += 1;
    }

    // A run of bytes.
    pub fn put_all(&mut self, bytes: &[u8])
        requires { Room (length bytes.now) self.old }
        ensures { Told self.old bytes.now self.new }
    {
        let end = self.at + bytes.len();
        self.out[self.at..end].copy_from_slice(bytes);
        self.at = end;
    }

    // A number in decimal: the digits of its tenth, and then its last digit.
    // Not by `Display`: the digits' edit, last_digit_over_the_first, and specs/Decimal.antt are of this recursion.
    pub fn number(&mut self, n: u64)
        requires { Room (length (decimal n)) self.old }
        ensures { Told self.old (decimal n) self.new }
    {
        if n >= 10 {
            self.number(n / 10);
        }
        self.put(digit(n % 10));
    }

    // A number and the byte after it.
    pub fn word(&mut self, n: u64, end: u8)
        requires { Room 21 self.old }
        ensures told { Told self.old (decimal n ++ (end ∷ [])) self.new }
        ensures most { self.new.at ≤ self.old.at + 21 }
    {
        self.number(n);
        self.put(end);
    }
}

fn digit(d: u64) -> u8
    requires { d < 10 }
    ensures { result ≡ 48 + d }
{
    b'0' + d as u8
}
