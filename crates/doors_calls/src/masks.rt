// Ranges, and the masks as sets: "`contains`, `difference` and union follow the Rust".

// M12: "(300, 0) gives 0; (3, 2) gives 3; (252, 4) gives bit 63 alone; (252, 5) gives 25"
fn ranges() {
    doors_lent::range(b"range 300 0", 300, 0);
    doors_lent::range(b"range 3 2", 3, 2);
    doors_lent::range(b"range 252 4", 252, 4);
    doors_lent::range(b"range 252 5", 252, 5);
}

// Each line has this mask, the other, and what is made of them.
fn sets(this: u64, other: u64) {
    // "Returns true if `self` contains all bits in `other`."
    let contains = [
        this,
        other,
        u64::from(doors::wuldazin_contains(this, other)),
    ];
    doors_lent::words(b"contains", &contains);
    // "Returns the bits in `self` that are not set in `other`."
    let difference = [this, other, doors::wuldazin_difference(this, other)];
    doors_lent::words(b"difference", &difference);
    // `self.0 | rhs.0`
    let union = [this, other, doors::wuldazin_union(this, other)];
    doors_lent::words(b"union", &union);
}

pub fn run() {
    ranges();
    sets(7, 5);
    sets(5, 7);
    sets(12, 10);
    sets(9223372036854775809, 1);
    sets(1, 9223372036854775809);
}
