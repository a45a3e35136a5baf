// The conditions of the branches (manual, 3.4).
#![tactic(auto)]

ghost use Rattle.std.specs.Prelude.{◌≡◌};
ghost use Rattle.comparison.specs.Comparison.{unsigned_holds, signed_holds};

#[derive(Clone, Copy, Debug, PartialEq, Eq)]
pub enum Order {
    Equal,
    NotEqual,
    LessOrEqual,
    Less,
    GreaterOrEqual,
    Greater,
}

#[tactic(auto, unfolding(crate::specs::Comparison::unsigned_holds))]
pub fn unsigned_holds(order: Order, x: u32, y: u32) -> bool
    ensures { result ≡ unsigned_holds order x y }
{
    match order {
        Order::Equal => x == y,
        Order::NotEqual => x != y,
        Order::LessOrEqual => x <= y,
        Order::Less => x < y,
        Order::GreaterOrEqual => x >= y,
        Order::Greater => x > y,
    }
}

// Adding 2^31 modulo 2^32 turns the signed order into the unsigned one; by i32 the match would stand twice.
#[tactic(auto, using(crate::proofs::Orders::signed_by_unsigned))]
pub fn signed_holds(order: Order, x: u32, y: u32) -> bool
    ensures { result ≡ signed_holds order x y }
{
    let a = sums::add(x, 0x8000_0000);
    let b = sums::add(y, 0x8000_0000);
    unsigned_holds(order, a, b)
}
