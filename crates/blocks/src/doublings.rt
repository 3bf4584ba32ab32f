// Products of one byte by many, with no table: so that LLVM takes many bytes at once.
ghost use Rattle.std.specs.Prelude.{◌≡◌, ◌%◌, ◌*◌};
ghost use Rattle.std.specs.Int.Bits.{bit_xor};
ghost use Rattle.gf256.specs.Field.{double, product};

// A byte and its doublings.
#[derive(Clone, Copy)]
pub struct Doublings {
    pub c0: u8,
    pub c1: u8,
    pub c2: u8,
    pub c3: u8,
    pub c4: u8,
    pub c5: u8,
    pub c6: u8,
    pub c7: u8,
    pub ghost doubled: { (c1 ≡ double c0) × (c2 ≡ double c1) × (c3 ≡ double c2) × (c4 ≡ double c3) × (c5 ≡ double c4) × (c6 ≡ double c5) × (c7 ≡ double c6) },
}

// c where the lowest bit of s is set, plus what the bits above it add.
fn add_bit(s: u8, c: u8, above: u8) -> u8
    ensures { result ≡ bit_xor (s % 2 * c) above }
{
    (s % 2 * c) ^ above
}

impl Doublings {
    pub fn of(c: u8) -> Self
        ensures { result.c0 ≡ c }
    {
        let c1 = gf256::double(c);
        let c2 = gf256::double(c1);
        let c3 = gf256::double(c2);
        let c4 = gf256::double(c3);
        let c5 = gf256::double(c4);
        let c6 = gf256::double(c5);
        let c7 = gf256::double(c6);
        Self {
            c0: c,
            c1,
            c2,
            c3,
            c4,
            c5,
            c6,
            c7,
        }
    }

    // The product by s: each bit of s adds the doubling of its place.
    pub fn times(self, s: u8) -> u8
        ensures { result ≡ product self.c0 s }
    {
        let s1 = s / 2;
        let s2 = s1 / 2;
        let s3 = s2 / 2;
        let s4 = s3 / 2;
        let s5 = s4 / 2;
        let s6 = s5 / 2;
        let s7 = s6 / 2;
        let p7 = add_bit(s7, self.c7, 0);
        let p6 = add_bit(s6, self.c6, p7);
        let p5 = add_bit(s5, self.c5, p6);
        let p4 = add_bit(s4, self.c4, p5);
        let p3 = add_bit(s3, self.c3, p4);
        let p2 = add_bit(s2, self.c2, p3);
        let p1 = add_bit(s1, self.c1, p2);
        add_bit(s, self.c0, p1)
    }
}
